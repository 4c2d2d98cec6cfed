//! Lines off a source that gives its bytes in any pieces.
ghost use Rattle.std.specs.Prelude.{◌≡◌, ◌≤◌, ◌<◌, ◌++◌, ℕ, [], take, length, Some, None, IfOk};
ghost use Rattle.std.specs.List.{position};
ghost use Rattle.mp_edge.specs.Outside.{Tells, Rose, HasCause};
ghost use Rattle.mp_model.specs.Stream.{without_return};
ghost use Rattle.mp_text.specs.Cutting.{is_line_feed, Fills};

use mp_edge::{Failed, Source};
use std::marker::Model;

/// What a call of `next` found.
#[derive(Clone, Copy, Debug, PartialEq, Eq)]
pub enum LineStep {
    /// A line, which `line` gives.
    Line,
    /// No line is left.
    End,
    /// The next line has more bytes than a line may have.
    TooLong,
    /// The source met a fault.
    Failed,
}

const LINE_FEED: u8 = b'\n';

// What a search for the end of a line found.
enum Found {
    // The line feed stands at this place.
    Feed(usize),
    // The source is at its end, and its last line has no line feed.
    Last,
    // The source is at its end, and nothing is left.
    End,
    // The buffer is full, and no line ends in it.
    Full,
    Failed,
}

/// The place of the first line feed.
pub fn line_feed(bytes: &[u8]) -> Option<usize>
    ensures { result ≡ position is_line_feed bytes.now }
{
    bytes.iter().position(|b| *b == LINE_FEED)
}

// How many bytes of the line are left when a carriage return at its end is dropped.
fn trimmed(line: &[u8]) -> usize
    ensures within { result ≤ length line.now }
    ensures value { take result line.now ≡ without_return line.now }
{
    let len = line.len();
    if len == 0 {
        return 0;
    }
    if line[len - 1] == b'\r' { len - 1 } else { len }
}

/// The line without a carriage return at its end.
pub fn without_return(line: &[u8]) -> &[u8]
    ensures { result.now ≡ without_return line.now }
{
    &line[..trimmed(line)]
}

// Reads behind the first `have` bytes, and gives how many there are then.
fn fill<S: Source>(buf: &mut [u8], have: usize, src: &mut S) -> Result<usize, Failed>
    requires { have < length buf.old }
    ensures within { IfOk result (λ n. (have ≤ n) × (n ≤ length buf.new)) }
    ensures kept { take have buf.new ≡ take have buf.old }
    ensures told { Tells (S.left src.old) (S.left src.new) (Fills result have buf.old buf.new) }
    ensures cause { HasCause (S.faults src.old) (S.faults src.new) result }
{
    let count = src.take(&mut buf[have..])?;
    Ok(have + count)
}

// Reads until a line ends in the first `have` bytes.
fn find<S: Source>(buf: &mut [u8], have: &mut usize, src: &mut S) -> Found
    requires { have.old ≤ length buf.old }
    ensures within { have.new ≤ length buf.new }
    ensures told { Tells (S.left src.old) (S.left src.new) (λ was now. take have.old buf.old ++ was ≡ take have.new buf.new ++ now) }
    ensures feed { (at : ℕ) → result ≡ Found.Feed at → position is_line_feed (take have.new buf.new) ≡ Some at }
    ensures last { result ≡ Found.Last → (position is_line_feed (take have.new buf.new) ≡ None) × (0 < have.new) × (have.new < length buf.new) × Tells (S.left src.old) (S.left src.new) (λ _ now. now ≡ []) }
    ensures end { result ≡ Found.End → (have.new ≡ 0) × Tells (S.left src.old) (S.left src.new) (λ _ now. now ≡ []) }
    ensures full { result ≡ Found.Full → (position is_line_feed (take have.new buf.new) ≡ None) × (have.new ≡ length buf.new) }
    ensures later { S.faults src.old ≤ S.faults src.new }
    ensures unended { result ≡ Found.Failed → (position is_line_feed (take have.new buf.new) ≡ None) × (have.new < length buf.new) }
    ensures failed { result ≡ Found.Failed → Rose (S.faults src.old) (S.faults src.new) }
{
    loop {
        if let Some(at) = line_feed(&buf[..*have]) {
            return Found::Feed(at);
        }
        if *have == buf.len() {
            return Found::Full;
        }
        match fill(buf, *have, src) {
            Ok(now) if now == *have => return if now == 0 { Found::End } else { Found::Last },
            Ok(now) => *have = now,
            Err(Failed) => return Found::Failed,
        }
    }
}

/// Cuts the bytes of a source into lines of at most N - 1 bytes, in a buffer of N bytes.
///
/// A line ends at a line feed or at the end of the input, and a carriage return that ends it is
/// dropped. After `TooLong` or `Failed` the cutter is not used again.
#[derive(Drop)]
pub struct LineCutter<const N: usize> {
    buf: [u8; N],
    // The last line, without its end.
    from: usize,
    to: usize,
    // The bytes behind it.
    next: usize,
    end: usize,
}

impl<const N: usize> Model for LineCutter<N> {
    ghost use Rattle.std.specs.Prelude.{◌≤◌, ◌-◌, take, drop};
    ghost use Rattle.mp_text.specs.Cut.{Cut};

    ghost Value = { Cut };

    ghost view = { λ c. record { line = take (c.to - c.from) (drop c.from c.buf); held = take (c.end - c.next) (drop c.next c.buf) } };

    ghost invariant = { λ c. (2 ≤ N) × (c.from ≤ c.to) × (c.to ≤ N) × (c.next ≤ c.end) × (c.end ≤ N) };
}

impl<const N: usize> LineCutter<N> {
    ghost use Rattle.mp_text.specs.Cutting.{NoLineFeed, Cuts};

    /// A cutter before its first line.
    pub fn new() -> Self
        requires { 2 ≤ N }
        ensures { result ≡ record { line = []; held = [] } }
    {
        LineCutter {
            buf: [0; N],
            from: 0,
            to: 0,
            next: 0,
            end: 0,
        }
    }

    /// The last line, without its end.
    pub fn line(&self) -> &[u8]
        ensures { result.now ≡ self.now.line }
    {
        let buf = &self.buf[..];
        &buf[self.from..self.to]
    }

    /// Drops the last line, and looks for the next. The source is asked only while the bytes held
    /// have no line feed and are fewer than N, each time for all that is left of the N bytes.
    pub fn next<S: Source>(&mut self, src: &mut S) -> LineStep
        ensures told { Tells (S.left src.old) (S.left src.new) (Cuts N result self.old self.new) }
        ensures unasked { (¬ NoLineFeed self.old.held) → src.new ≡ src.old }
        ensures later { S.faults src.old ≤ S.faults src.new }
        ensures failed { result ≡ LineStep.Failed → Rose (S.faults src.old) (S.faults src.new) }
    {
        let buf = &self.buf[..];
        if let Some(at) = line_feed(&buf[self.next..self.end]) {
            let line = trimmed(&buf[self.next..self.next + at]);
            self.from = self.next;
            self.to = self.next + line;
            self.next = self.next + at + 1;
            return LineStep::Line;
        }
        self.buf.copy_within(self.next..self.end, 0);
        let mut have = self.end - self.next;
        let found = find(&mut self.buf, &mut have, src);
        self.from = 0;
        self.to = 0;
        self.next = 0;
        self.end = have;
        match found {
            Found::Feed(at) => {
                self.to = trimmed(&self.buf[..at]);
                self.next = at + 1;
                LineStep::Line
            }
            Found::Last => {
                self.to = trimmed(&self.buf[..have]);
                self.next = have;
                LineStep::Line
            }
            Found::End => LineStep::End,
            Found::Full => LineStep::TooLong,
            Found::Failed => LineStep::Failed,
        }
    }
}
