// How many files have which answer, or as many as can be counted.
use reader::Refusal;

#[derive(Drop)]
pub struct Counts {
    pub files: u64,
    pub accepted: u64,
    // By the number of the refusal.
    pub refused: [u64; 256],
    // Of the refused, those that are outside what is read.
    pub outside: u64,
    // Those that cannot be read.
    pub unread: u64,
}

impl Counts {
    pub fn none() -> Counts {
        Counts {
            files: 0,
            accepted: 0,
            refused: [0; 256],
            outside: 0,
            unread: 0,
        }
    }

    pub fn add_accepted(&mut self) {
        self.add_file();
        self.accepted = self.accepted.saturating_add(1);
    }

    pub fn add_unread(&mut self) {
        self.add_file();
        self.unread = self.unread.saturating_add(1);
    }

    pub fn add_refused(&mut self, text: &[u8], refusal: Refusal) {
        self.add_file();
        let number = refusal.number;
        let count = &mut self.refused[number as usize];
        *count = count.saturating_add(1);
        let place = refusal.place;
        if outside::is_outside(number, refusal.clause, text, place.0) {
            self.outside = self.outside.saturating_add(1);
        }
    }

    fn add_file(&mut self) {
        self.files = self.files.saturating_add(1);
    }
}
