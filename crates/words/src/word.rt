// The words of a line, with a separator between them.
ghost use Rattle.std.specs.Prelude.{◌≡◌, [], ◌≤◌, length, get_or};
ghost use Rattle.words.specs.Words.{Found, place, word_end, words};

// Where a word stands in its line: from its first byte up to, not including, the second index.
#[derive(Clone, Copy)]
pub struct Place {
    pub from: usize,
    pub to: usize,
}

// Where the word that starts at `from` ends: before the next separator, or where the line does.
fn word_end(line: &[u8], separator: u8, from: usize) -> usize
    requires { from ≤ length line.now }
    ensures is { result ≡ word_end separator line.now from }
    ensures low { from ≤ result }
    ensures high { result ≤ length line.now }
{
    match line[from..].iter().position(|b| *b == separator) {
        Some(n) => from + n,
        None => line.len(),
    }
}

// Where the word of that index stands, counted from 0; or there are not so many. An empty line has one word, which is empty.
pub fn word_at(line: &[u8], separator: u8, index: usize) -> Option<Place>
    ensures place { result ≡ place 0 (words separator line.now) index }
    ensures bytes { Found line.now (words separator line.now) index result }
{
    let mut from = 0;
    for _ in 0..index {
        let end = word_end(line, separator, from);
        if end == line.len() {
            return None;
        }
        from = end + 1;
    }
    let to = word_end(line, separator, from);
    Some(Place { from, to })
}

// The bytes of the word of that index; none where there is no such word.
pub fn part(line: &[u8], separator: u8, index: usize) -> &[u8]
    ensures { result.now ≡ get_or (words separator line.now) index [] }
{
    match word_at(line, separator, index) {
        Some(Place { from, to }) => &line[from..to],
        None => &[],
    }
}

// How many words there are: at least one.
pub fn count_words(line: &[u8], separator: u8) -> usize
    ensures number { result ≡ length (words separator line.now) }
    ensures some { 1 ≤ result }
{
    line.split(|b| *b == separator).count()
}
