ghost use Rattle.std.specs.Prelude.{◌≡◌, ℕ, ◌+◌, ◌*◌, ◌<◌, ◌≤◌, true, false, [], ◌∷◌, ◌++◌, length, drop, Some, MatchResult};
ghost use Rattle.lang.specs.Bytes.{bytes_of_tree};
ghost use Rattle.lent.specs.Output.{Appends, Overflows};
ghost use Rattle.readable.specs.Syntax.{numeral};
ghost use Rattle.readable.specs.Text.{more_digits, Parsed, Refused};
ghost use Rattle.readable.specs.Machine.{behind, Never, InText};
ghost use Rattle.readable.specs.Parsers.{to_come, text_to_come, flushed, high, size, fault_at, Accepts, Waits, Begins, ParsedInto, HasRoom, Kept, Moved, Flushed, Stepped, Ended, Stopped, StoppedAtEnd, item_after};

use crate::tokens::{Kind, Token};
use lent::output::{NoRoom, Output};
use lent::stack::Stack;

// What is still to come: an item; the two items of a pair and its closing bracket, the second of them and the bracket, the bracket alone; the rest of a list.
#[derive(Clone, Copy, Debug, PartialEq)]
pub enum Symbol {
    Item,
    First,
    Second,
    Shut,
    Rest,
}

// The byte where no text that stands for a tree goes on so, or memory that does not suffice.
#[derive(Clone, Copy, Debug, PartialEq)]
pub enum Fault {
    At(usize),
    Full,
}

// The same, of a token or a byte that does not know where it stands.
#[derive(Clone, Copy, Debug, PartialEq)]
enum Stop {
    Bad,
    Full,
}

impl Stop {
    fn at(self, place: usize) -> Fault
        ensures { result ≡ fault_at place self }
    {
        match self {
            Stop::Bad => Fault::At(place),
            Stop::Full => Fault::Full,
        }
    }
}

impl From<NoRoom> for Stop {
    ghost use Rattle.readable.specs.declared.parsing.Stop.TheVariants.{Full};

    ghost from_gives = { λ _ stop. stop ≡ Full };

    fn from(_: NoRoom) -> Stop {
        Stop::Full
    }
}

// The bytes of the tree of n, at the front of a slice: a node and a leaf n times, and a leaf.
// By hand, two at a time: through `put_all` a byte takes seven times as long.
fn write_numeral(out: &mut [u8], n: usize)
    requires { 2 * n < length out.old }
    ensures { out.new ≡ bytes_of_tree (numeral n) ++ drop (2 * n + 1) out.old }
{
    for i in 0..n {
        out[2 * i] = 1;
        out[2 * i + 1] = 0;
    }
    out[2 * n] = 0;
}

// The same behind what is written. Whether they fit is seen first, so that a number that is too large costs no more than its digits.
fn put_numeral(out: &mut Output<'_>, n: usize) -> Result<(), NoRoom>
    ensures { MatchResult result (λ _. Appends out.old out.new (bytes_of_tree (numeral n))) (λ _. Overflows out.old (bytes_of_tree (numeral n))) }
{
    let room = out.bytes.len() - out.len;
    if n >= room - room / 2 {
        return Err(NoRoom);
    }
    write_numeral(&mut out.bytes[out.len..], n);
    out.len += 2 * n + 1;
    Ok(())
}

// The stack of what is still to come, the next on top; the bytes written; the digits of a number that has not ended. An explicit stack, since brackets may be nested deeper than the native stack is high.
#[derive(Drop)]
struct Parser<'a, 's, 'o> {
    stack: &'a mut Stack<'s, Symbol>,
    out: &'a mut Output<'o>,
    number: Option<usize>,
}

impl Parser<'_, '_, '_> {
    // A token where an item is to come.
    fn item(&mut self, token: Token) -> Result<(), Stop>
        requires { HasRoom self.old }
        ensures { MatchResult result (λ _. Moved self.old self.new (item_after self.old token)) (λ stop. Stopped stop (size self.old) (item_after self.old token)) }
    {
        match token {
            Token::Dot => Ok(self.out.put(0)?),
            Token::Number(n) => Ok(put_numeral(self.out, n)?),
            Token::Open => {
                self.stack.push(Symbol::First);
                Ok(self.out.put(1)?)
            }
            Token::Begin => {
                self.stack.push(Symbol::Rest);
                Ok(())
            }
            Token::Close | Token::End => Err(Stop::Bad),
        }
    }

    // A token: what is to come is on top of the stack.
    fn take(&mut self, token: Token) -> Result<(), Stop>
        requires { HasRoom self.old }
        ensures { MatchResult result (λ _. Moved self.old self.new (behind token (to_come self.old))) (λ stop. Stopped stop (size self.old) (behind token (to_come self.old))) }
    {
        let Some(wanted) = self.stack.pop() else {
            return Err(Stop::Bad);
        };
        match wanted {
            Symbol::Item => self.item(token),
            Symbol::First => {
                self.stack.push(Symbol::Second);
                self.item(token)
            }
            Symbol::Second => {
                self.stack.push(Symbol::Shut);
                self.item(token)
            }
            Symbol::Shut => match token {
                Token::Close => Ok(()),
                _ => Err(Stop::Bad),
            },
            Symbol::Rest => match token {
                Token::End => Ok(self.out.put(0)?),
                _ => {
                    self.stack.push(Symbol::Rest);
                    self.out.put(1)?;
                    self.item(token)
                }
            },
        }
    }

    // Whether an item may begin here.
    fn wants_item(&self) -> bool
        ensures no { result ≡ false → (v : ℕ) → Never (behind (Token.Number v) (to_come self.now)) }
        ensures yes { result ≡ true → Accepts self.now.stack.now.items }
    {
        match self.stack.top() {
            Some(top) => top != Symbol::Shut,
            None => false,
        }
    }

    // The number whose digits end here, if there is one.
    fn flush(&mut self) -> Result<(), Stop>
        requires { HasRoom self.old }
        ensures { MatchResult result (λ _. Flushed self.old self.new) (λ stop. Stopped stop (size self.old) (flushed self.old.number (to_come self.old))) }
    {
        match self.number.take() {
            Some(n) => self.take(Token::Number(n)),
            None => Ok(()),
        }
    }

    // The digits read so far, and one more.
    fn digit(&self, d: u8) -> Result<usize, Stop>
        requires { Waits self.now }
        ensures { MatchResult result (λ n. (n ≡ more_digits self.now.number d) × Accepts self.now.stack.now.items) (λ stop. Stopped stop (size self.now) (InText (Some (more_digits self.now.number d)) (to_come self.now))) }
    {
        let Some(n) = self.number else {
            if self.wants_item() {
                return Ok(d as usize);
            }
            return Err(Stop::Bad);
        };
        let more = n.saturating_mul(10).saturating_add(d as usize);
        // a number is shorter than its tree's bytes
        if more > self.out.bytes.len() {
            return Err(Stop::Full);
        }
        Ok(more)
    }

    // One byte of the text.
    fn byte(&mut self, c: u8) -> Result<(), Stop>
        requires room { high self.old < self.old.stack.now.capacity }
        requires waits { Waits self.old }
        ensures { MatchResult result (λ _. Stepped self.old self.new (behind c (text_to_come self.old))) (λ stop. Stopped stop (size self.old) (behind c (text_to_come self.old))) }
    {
        match Kind::from(c) {
            Kind::Digit(d) => {
                self.number = Some(self.digit(d)?);
                Ok(())
            }
            Kind::Space => self.flush(),
            Kind::Mark(token) => {
                self.flush()?;
                self.take(token)
            }
            Kind::Other => Err(Stop::Bad),
        }
    }

    // The end of the text: how many bytes were written.
    fn end(&mut self) -> Result<usize, Stop>
        requires { high self.old < self.old.stack.now.capacity }
        ensures { MatchResult result (λ k. Ended self.old self.new k) (λ stop. StoppedAtEnd stop (size self.old) (text_to_come self.old)) }
    {
        self.flush()?;
        if !self.stack.is_empty() {
            return Err(Stop::Bad);
        }
        Ok(self.out.len)
    }

    // The whole text.
    fn text(&mut self, text: &[u8]) -> Result<usize, Fault>
        requires { Begins text.now self.old }
        ensures { MatchResult result (λ k. Kept self.old self.new × Parsed text.now self.new.out.now.bytes.now k) (λ f. Refused f text.now self.old.stack.now.capacity (size self.old)) }
    {
        for (i, &c) in text.iter().enumerate() {
            self.byte(c).map_err(|stop| stop.at(i))?;
        }
        self.end().map_err(|stop| stop.at(text.len()))
    }
}

// The references in a parser have one lifetime, which is named here.
fn parse_with<'a>(
    text: &[u8],
    stack: &'a mut Stack<'_, Symbol>,
    out: &'a mut Output<'_>,
) -> Result<usize, Fault>
    requires empty { stack.old.items ≡ [] }
    requires room { length text.now + 2 ≤ stack.old.capacity }
    requires none { out.old.len ≡ 0 }
    ensures { MatchResult result (λ k. ParsedInto text.now out.old out.new k) (λ f. Refused f text.now stack.old.capacity (length out.old.bytes.now)) }
{
    stack.push(Symbol::Item);
    let mut parser = Parser {
        stack,
        out,
        number: None,
    };
    parser.text(text)
}

// Reads a text that stands for a tree, and writes the tree's bytes at the beginning of `out`: how many they are. The stack holds two symbols more than the text has bytes.
pub fn parse(text: &[u8], stack: &mut [Symbol], out: &mut [u8]) -> Result<usize, Fault>
    ensures { MatchResult result (λ k. Parsed text.now out.new k) (λ f. Refused f text.now (length stack.old) (length out.old)) }
{
    if stack.len() < text.len() + 2 {
        return Err(Fault::Full);
    }
    let mut stack = Stack::new(stack);
    let mut out = Output::new(out);
    parse_with(text, &mut stack, &mut out)
}
