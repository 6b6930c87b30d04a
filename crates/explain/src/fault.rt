// A refusal of a file's text.
use reader::Refusal;

#[derive(Clone, Copy)]
pub struct Fault<'a> {
    pub name: &'a [u8],
    pub text: &'a [u8],
    pub refusal: Refusal,
}

impl<'a> Fault<'a> {
    pub fn place(self) -> usize {
        let place = self.refusal.place;
        place.0
    }

    // Where the word starts that it stands against: the place itself, where it stands against none.
    pub fn against(self) -> usize {
        let other = self.refusal.other;
        other.0
    }

    // The other place that it stands against, where it does.
    pub fn other(self) -> Option<usize> {
        let other = self.against();
        if other == self.place() {
            None
        } else {
            Some(other)
        }
    }
}
