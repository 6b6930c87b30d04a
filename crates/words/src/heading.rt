// What tools print in front of octets.
ghost use Rattle.std.specs.Prelude.{◌≡◌, ◌≤◌, length};
ghost use Rattle.words.specs.Octets.{blank, blanks, front, heading};

// A tab, a line end and its kin, or a blank.
#[tactic(auto, unfolding(crate::specs::Octets::blank))]
pub fn is_blank(b: u8) -> bool
    ensures { result ≡ blank b }
{
    b == b' ' || (9..=13).contains(&b)
}

// How many blanks a word starts with.
fn count_blanks(word: &[u8]) -> usize
    ensures number { result ≡ blanks word.now }
    ensures inside { result ≤ length word.now }
{
    match word.iter().position(|b| !is_blank(*b)) {
        Some(n) => n,
        None => word.len(),
    }
}

// How many bytes say that octets follow.
fn heading_size(word: &[u8]) -> usize
    ensures number { result ≡ heading word.now }
    ensures inside { result ≤ length word.now }
{
    if word.starts_with(b"Hex-STRING:") {
        11
    } else if word.starts_with(b"0x") || word.starts_with(b"0X") {
        2
    } else {
        0
    }
}

// How many bytes stand in front of the octets: blanks, and what says that octets follow.
#[tactic(auto, using(crate::proofs::FrontLaws::front_is, crate::proofs::FrontLaws::front_fits))]
pub fn front(word: &[u8]) -> usize
    ensures number { result ≡ front word.now }
    ensures inside { result ≤ length word.now }
{
    let blanks = count_blanks(word);
    blanks + heading_size(&word[blanks..])
}
