// Lines of a text.
ghost use Rattle.std.specs.Prelude.{◌≡◌, ◌≤◌, length};
ghost use Rattle.position.specs.Line.{line_at, start_at, without_return, end_at, feed_after};

const LINE_FEED: u8 = 10;

const CARRIAGE_RETURN: u8 = 13;

// A line: its number, from 1 on, and where it starts.
#[derive(Clone, Copy)]
pub struct Position {
    pub line: usize,
    pub start: usize,
}

// The line that a place stands in.
#[tactic(auto, using(crate::proofs::LineLaws::line_steps))]
pub fn locate(text: &[u8], place: usize) -> Position
    requires { place ≤ length text.now }
    ensures line { result.line ≡ line_at text.now place }
    ensures start { result.start ≡ start_at text.now place }
    ensures before { result.start ≤ place }
{
    let mut line = 1;
    let mut start = 0;
    for (i, b) in text[..place].iter().enumerate() {
        if *b == LINE_FEED {
            line += 1;
            start = i + 1;
        }
    }
    Position { line, start }
}

// Where a line from `place` on ends that runs up to `end`: before a carriage return, where one ends it.
#[tactic(auto, unfolding(crate::specs::Line::without_return))]
fn without_return(text: &[u8], place: usize, end: usize) -> usize
    requires order { place ≤ end }
    ensures is { result ≡ without_return text.now place end }
    ensures low { place ≤ result }
    ensures high { result ≤ end }
{
    if place < end && buffer::byte_at(text, end - 1) == CARRIAGE_RETURN {
        end - 1
    } else {
        end
    }
}

// Where the next line feed stands from a place on, or where the text ends.
fn feed_after(text: &[u8], place: usize) -> usize
    requires { place ≤ length text.now }
    ensures is { result ≡ feed_after text.now place }
    ensures low { place ≤ result }
    ensures high { result ≤ length text.now }
{
    match text[place..].iter().position(|b| *b == LINE_FEED) {
        Some(n) => place + n,
        None => text.len(),
    }
}

// Where the line that a place stands in ends.
pub fn line_end(text: &[u8], place: usize) -> usize
    requires { place ≤ length text.now }
    ensures is { result ≡ end_at text.now place }
    ensures low { place ≤ result }
    ensures high { result ≤ length text.now }
{
    let feed = feed_after(text, place);
    without_return(text, place, feed)
}
