// A word that is yes or no.
ghost use Rattle.words.specs.Flag.{Means};

// What a word is as a flag: yes is true, no is false, and any other is none.
pub fn read_flag(word: &[u8]) -> Option<bool>
    ensures { Means word.now result }
{
    match word {
        b"yes" => Some(true),
        b"no" => Some(false),
        _ => None,
    }
}
