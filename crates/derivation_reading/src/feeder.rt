//! Reading a derivation in pieces.

ghost use Rattle.std.specs.Prelude.{◌≡◌, ◌+◌, ◌<◌, ◌≤◌, ◌^◌, IsTrue, take, [], ◌∷◌, ◌++◌, length, reverse, All, IfOk};
ghost use Rattle.token_stream.specs.declared.stream.Taken.TheVariants as takes;
ghost use Rattle.token_stream.specs.Stream.{name_of};
ghost use Rattle.derivation.specs.Events.{Continues};
ghost use Rattle.derivation.specs.Fits.{EventFits};
ghost use Rattle.derivation.specs.Nodes.{Node, node_events};
ghost use Rattle.derivation_reading.specs.declared.feeder.Progress.TheVariants.{Open};
ghost use Rattle.derivation_reading.specs.Terminals.{terminal_of, name_by};
ghost use Rattle.derivation_reading.specs.Grammar.{lookup, next};
ghost use Rattle.derivation_reading.specs.Outcomes.{symbols};
ghost use Rattle.derivation_reading.specs.FirstFault.{AnswersDerivation, IsOnlyDerivation, IsOfGrammar};
ghost use Rattle.derivation_reading.specs.Feeding.{Comes, Ends, Stays, StaysClosed, StaysFitting, EndsTree, HasCome, HasLeft, Keeps, Accepts, Goes, Reaches, Stops, FailsOpen, answer_of, failure, without_byte};

use crate::production::{Behind, Outcome, next};
use crate::symbol::{Symbol, terminal_of};
use derivation::{Event, Log, Recorder};
use geo_tokens::fault::{FaultWord, TextFault};
use geo_tokens::names::Names;
use geo_tokens::token::{Kind, Token};
use std::alloc::{AllocError, Global};
use std::cmp::Ordering;
use token_stream::{Taken, TokenStream};

/// How many bytes a text may have up to its word `qed`.
const MOST_BYTES: u64 = 1 << 40;

/// How far the reading has come.
#[derive(Clone, Copy)]
pub enum Progress {
    /// What may come next.
    Open(Symbol),
    /// The word `qed` came.
    Done,
    /// The text is no derivation.
    Failed(TextFault),
}

/// A derivation that comes in pieces. Of its text only what is open is kept.
pub struct Feeder<'a> {
    names: &'a Names,
    place: u64,
    stream: TokenStream,
    progress: Progress,
    /// What may come behind it, the next one last.
    behind: Vec<Symbol>,
}

impl Drop for Feeder<'_> {
    fn drop(self) {
        let Feeder {
            names: _,
            place: _,
            stream: _stream,
            progress: _progress,
            behind: _behind,
        } = self;
    }
}

impl<'a> Feeder<'a> {
    /// Before the first piece of a text that begins at this place of the input. It takes no memory.
    pub fn start(alloc: Global, names: &'a Names, place: u64) -> Feeder<'a>
        requires place { place ≤ 2 ^ 62 }
        ensures { HasCome names.now place result [] [] }
    {
        Feeder {
            names,
            place,
            stream: TokenStream::start(),
            progress: Progress::Open(Symbol::Text),
            behind: Vec::new(alloc),
        }
    }

    /// Takes the next piece, and records the events that are whole with it. True where the word
    /// `qed` came. A reading that has failed fails so from then on, and records nothing.
    pub fn feed(&mut self, piece: &[u8], out: &mut Log) -> Result<bool, TextFault>
        ensures come { Comes self.old self.new piece.now out.old.events out.new.events }
        ensures answer { result ≡ answer_of self.new.progress }
        ensures fits { StaysFitting self.old out.old.events out.new.events }
        ensures tree { EndsTree self.old result out.old.events out.new.events }
        ensures stays { Stays self.old.progress self.new result out.old.events out.new.events }
    {
        let _dims = self.names.dims();
        let mut at = 0;
        while at < piece.len() {
            at += self.take_some(&piece[at..], out);
        }
        self.answer()
    }

    /// The text has ended. It is true where it is a derivation. A reading that has failed fails so
    /// again.
    pub fn finish(&mut self, out: &mut Log) -> Result<bool, TextFault>
        ensures ended { Ends self.old self.new out.old.events out.new.events }
        ensures answer { result ≡ answer_of self.new.progress }
        ensures fits { StaysFitting self.old out.old.events out.new.events }
        ensures tree { EndsTree self.old result out.old.events out.new.events }
        ensures stays { Stays self.old.progress self.new result out.old.events out.new.events }
    {
        let _dims = self.names.dims();
        if let Progress::Open(symbol) = self.progress {
            self.end(symbol, out);
        }
        self.answer()
    }

    fn answer(&self) -> Result<bool, TextFault>
        ensures { result ≡ answer_of self.now.progress }
    {
        match self.progress {
            Progress::Open(_) => Ok(false),
            Progress::Done => Ok(true),
            Progress::Failed(fault) => Err(fault),
        }
    }

    // What stands at this place of the text is wrong for this reason.
    fn fail(&mut self, place: u64, word: FaultWord)
        ensures { self.new ≡ record self.old { progress = failure self.old place word } }
    {
        let place = self.place.saturating_add(place);
        self.progress = Progress::Failed(TextFault::At(place, word));
    }

    // Takes the first bytes of a piece, and counts them.
    fn take_some(&mut self, piece: &[u8], out: &mut Log) -> usize
        requires some { 0 < length piece.now }
        ensures come { Comes self.old self.new (take result piece.now)
            out.old.events out.new.events }
        ensures stays { StaysClosed self.old.progress self.new.progress
            out.old.events out.new.events }
        ensures inside { result ≤ length piece.now }
        ensures some { 0 < result }
    {
        match self.progress {
            Progress::Open(symbol) if self.has_room(piece.len()) => {
                self.take_token(symbol, piece, out)
            }
            Progress::Open(_) => {
                self.take(piece[0], out);
                1
            }
            _ => piece.len(),
        }
    }

    // Whether a text may have so many bytes more.
    fn has_room(&self, more: usize) -> bool
        ensures { IsTrue result → self.now.stream.count + more ≤ 2 ^ 40 }
    {
        let count = self.stream.count();
        count < MOST_BYTES && more as u64 <= MOST_BYTES - count
    }

    // Takes the first bytes of a piece that a text may have: a whole token, or one byte.
    fn take_token(&mut self, symbol: Symbol, piece: &[u8], out: &mut Log) -> usize
        requires open { self.old.progress ≡ Open symbol }
        requires room { self.old.stream.count + length piece.now ≤ 2 ^ 40 }
        requires some { 0 < length piece.now }
        ensures come { Comes self.old self.new (take result piece.now)
            out.old.events out.new.events }
        ensures inside { result ≤ length piece.now }
        ensures some { 0 < result }
    {
        match self.stream.take_whole(piece) {
            Some((count, token)) => {
                self.accept(symbol, token, out);
                count
            }
            None => {
                self.take_next(symbol, piece[0], out);
                1
            }
        }
    }

    // Takes a byte, unless the reading has ended.
    fn take(&mut self, byte: u8, out: &mut Log)
        ensures come { Comes self.old self.new (byte ∷ []) out.old.events out.new.events }
        ensures stays { StaysClosed self.old.progress self.new.progress
            out.old.events out.new.events }
    {
        if let Progress::Open(symbol) = self.progress {
            match self.stream.count().cmp(&MOST_BYTES) {
                Ordering::Less => self.take_next(symbol, byte, out),
                Ordering::Equal => self.take_last(symbol, byte, out),
                Ordering::Greater => {}
            }
        }
    }

    // Takes a byte that a text may have.
    fn take_next(&mut self, symbol: Symbol, byte: u8, out: &mut Log)
        requires open { self.old.progress ≡ Open symbol }
        requires room { self.old.stream.count < 2 ^ 40 }
        ensures { Comes self.old self.new (byte ∷ []) out.old.events out.new.events }
    {
        let taken = self.stream.take(byte);
        self.accept_all(symbol, taken, out);
    }

    // Takes the byte behind the last one that a text may have.
    fn take_last(&mut self, symbol: Symbol, byte: u8, out: &mut Log)
        requires open { self.old.progress ≡ Open symbol }
        requires full { self.old.stream.count ≡ 2 ^ 40 }
        ensures { Comes self.old self.new (byte ∷ []) out.old.events out.new.events }
    {
        let taken = before_the_end(self.stream.take(byte));
        self.accept_all(symbol, taken, out);
        self.fail_open(MOST_BYTES, FaultWord::Long);
    }

    // The text has ended where this may come next.
    fn end(&mut self, symbol: Symbol, out: &mut Log)
        requires open { self.old.progress ≡ Open symbol }
        ensures { Ends self.old self.new out.old.events out.new.events }
    {
        let taken = self.stream.finish();
        self.accept_all(symbol, taken, out);
        let count = self.stream.count();
        if count < MOST_BYTES {
            self.fail_open(count, FaultWord::Syntax);
        } else {
            self.fail_open(MOST_BYTES, FaultWord::Long);
        }
    }

    // The same, unless the reading has ended.
    fn fail_open(&mut self, place: u64, word: FaultWord)
        ensures { FailsOpen self.old self.new place word }
    {
        if let Progress::Open(_) = self.progress {
            self.fail(place, word);
        }
    }

    // Takes what a byte or the end of the text completed.
    fn accept_all(&mut self, symbol: Symbol, taken: Taken, out: &mut Log)
        requires open { self.old.progress ≡ Open symbol }
        ensures grown { Continues out.old.events out.new.events }
        ensures keeps { Keeps self.old self.new }
        ensures reaches { Reaches self.old self.new symbol taken out.old.events out.new.events }
        ensures stops { Stops taken self.new.progress }
    {
        match taken {
            Taken::Nothing => {}
            Taken::Token(token) => self.accept(symbol, token, out),
            Taken::Fault(place, word) => self.fail(place, word),
            Taken::TokenAndFault(token, place) => {
                self.accept(symbol, token, out);
                self.fail_open(place, FaultWord::Byte);
            }
        }
    }

    // Takes a token.
    fn accept(&mut self, symbol: Symbol, token: Token, out: &mut Log)
        ensures grown { Continues out.old.events out.new.events }
        ensures keeps { Keeps self.old self.new }
        ensures reaches { Reaches self.old self.new symbol (takes.Token token)
            out.old.events out.new.events }
    {
        self.step(symbol, token, out);
    }

    // The bytes of the name that came last, for a token of this kind.
    fn name_for(&self, kind: Kind) -> &[u8]
        ensures { result.now ≡ name_by kind (name_of self.now.stream) }
    {
        match kind {
            Kind::Name => self.stream.name(),
            _ => b"".as_slice(),
        }
    }

    // What the token makes of the symbol.
    #[tactic(auto, using(crate::proofs::Accepting::went_on, crate::proofs::Accepting::gave))]
    fn step(&mut self, symbol: Symbol, token: Token, out: &mut Log)
        ensures accepts { Accepts self.old self.new
            (next (lookup self.old.names.now) symbol (terminal_of token.kind)
            (name_by token.kind (name_of self.old.stream)))
            token.start out.old.events out.new.events }
        ensures keeps { Keeps self.old self.new }
    {
        let name = self.name_for(token.kind);
        match next(self.names, symbol, terminal_of(token.kind), name) {
            Outcome::Wrong => self.fail(token.start, FaultWord::Syntax),
            Outcome::Unknown => self.fail(token.start, FaultWord::Unknown),
            Outcome::Goes(behind) => self.go_on(behind),
            Outcome::Gives(event, behind) => self.give(event, behind, out),
        }
    }

    // Records an event.
    #[tactic(auto, using(crate::proofs::Accepting::recorded, crate::proofs::Accepting::refused))]
    fn give(&mut self, event: Event, behind: Behind, out: &mut Log)
        ensures given { Goes self.old self.new (symbols behind) (event ∷ [])
            out.old.events out.new.events }
        ensures keeps { Keeps self.old self.new }
    {
        match out.add(event) {
            Ok(()) => self.go_on(behind),
            Err(AllocError) => self.progress = Progress::Failed(TextFault::Memory),
        }
    }

    // This comes in the place of what was open.
    fn go_on(&mut self, behind: Behind)
        ensures left { HasLeft self.new.progress self.new.behind.items
            (symbols behind ++ reverse self.old.behind.items) }
        ensures keeps { Keeps self.old self.new }
    {
        match behind {
            Behind::Nothing => self.close(),
            Behind::One(symbol) => self.progress = Progress::Open(symbol),
            Behind::Two(symbol, other) => self.open(symbol, other),
        }
    }

    // What was open is whole.
    fn close(&mut self)
        ensures left { HasLeft self.new.progress self.new.behind.items
            (reverse self.old.behind.items) }
        ensures keeps { Keeps self.old self.new }
    {
        self.progress = match self.behind.pop() {
            Some(symbol) => Progress::Open(symbol),
            None => Progress::Done,
        };
    }

    // This symbol comes next, and then the other one.
    fn open(&mut self, symbol: Symbol, other: Symbol)
        ensures left { HasLeft self.new.progress self.new.behind.items
            (symbol ∷ other ∷ reverse self.old.behind.items) }
        ensures keeps { Keeps self.old self.new }
    {
        self.progress = match self.behind.push(other) {
            Ok(()) => Progress::Open(symbol),
            Err(_) => Progress::Failed(TextFault::Memory),
        };
    }
}

// What a byte behind the last one of a text completed before it.
fn before_the_end(taken: Taken) -> Taken
    ensures { result ≡ without_byte taken }
{
    match taken {
        Taken::TokenAndFault(token, _) => Taken::Token(token),
        Taken::Fault(place, _) if place >= MOST_BYTES => Taken::Nothing,
        _ => taken,
    }
}

/// Reads a whole text that begins at this place of the input.
pub fn read_derivation(
    alloc: Global,
    names: &Names,
    text: &[u8],
    place: u64,
) -> Result<Log, TextFault>
    requires place { place ≤ 2 ^ 62 }
    ensures answer { AnswersDerivation result names.now place text.now }
    ensures only { IsOnlyDerivation result names.now place text.now }
    ensures fits { IfOk result
        (λ log. All (EventFits (length names.now.objects) names.now.dims) log.events) }
    ensures tree { IfOk result (λ log. (root : Node) × (node_events root ≡ log.events)) }
    ensures grammar { IfOk result (λ log. IsOfGrammar names.now text.now log.events) }
{
    let _dims = names.dims();
    let mut log = Log::new(alloc);
    let mut feeder = Feeder::start(alloc, names, place);
    if !feeder.feed(text, &mut log)? {
        feeder.finish(&mut log)?;
    }
    Ok(log)
}
