//! Reading and checking in one.

ghost use Rattle.std.specs.Prelude.{◌≡◌, ◌+◌, ◌-◌, ◌^◌, ◌<◌, ◌≤◌, ℕ, List, [], ◌++◌, length, true, false, OnOk, IfErr, Ok};
ghost use Rattle.std.specs.List.{All};
ghost use Rattle.geo_tokens.specs.Names.{NameTable};
ghost use Rattle.geo_conditions.specs.Reach.{Reach};
ghost use Rattle.geo_conditions.specs.Conditions.{AllFit};
ghost use Rattle.derivation.specs.declared.event.Event.{Event as EventOf};
ghost use Rattle.derivation.specs.Fits.{EventFits};
ghost use Rattle.derivation_check.specs.Machine.{HasTaken};
ghost use Rattle.derivation_reading.specs.FirstFault.{HasFaultFrom};
ghost use Rattle.derivation_reading.specs.declared.symbol.Symbol.{Symbol as SymbolOf};
ghost use Rattle.derivation_reading.specs.declared.feeder.Progress.TheVariants.{Open};
ghost use Rattle.stream_check.specs.Streaming.{IsChecking, HasChecked, IsReady, IsDecided};

use derivation::{Event, Log, Recorder};
use derivation_check::{Checked, Checker};
use derivation_reading::Feeder;
use geo_base::MAX_DIMS;
use geo_conditions::{Cond, State};
use geo_tokens::fault::TextFault;
use geo_tokens::names::Names;
use std::alloc::{AllocError, Global};

/// A derivation that is checked while it is read. It keeps the nodes and the covers that are open, and the events of one piece.
pub struct StreamCheck<'a, const K: usize> {
    feeder: Feeder<'a>,
    checker: Checker<'a, K>,
    log: Log,
}

impl<const K: usize> Drop for StreamCheck<'_, K> {
    fn drop(self) {
        let StreamCheck {
            feeder: _feeder,
            checker: _checker,
            log: _log,
        } = self;
    }
}

// Checks all of these events.
fn give_all<const K: usize>(checker: &mut Checker<K>, events: &[Event]) -> Result<(), AllocError>
    requires k { K ≤ MAX_DIMS }
    requires events { All (EventFits (length checker.old.machine.state) K) events.now }
    requires count { checker.old.machine.nodes + length events.now < 2 ^ 64 }
    ensures taken { OnOk result ((first : List Reach) (es : List EventOf)
        → HasTaken checker.old.conds first es checker.old.machine
        → HasTaken checker.old.conds first (es ++ events.now) checker.new.machine) }
    ensures conds { checker.new.conds ≡ checker.old.conds }
    ensures objects { length checker.new.machine.state ≡ length checker.old.machine.state }
    ensures nodes { checker.new.machine.nodes ≤ checker.old.machine.nodes + length events.now }
{
    for e in events {
        checker.give(*e)?;
    }
    Ok(())
}

impl<'a, const K: usize> StreamCheck<'a, K> {
    /// Before the first piece of a text that begins at this place of the input. It takes no memory.
    pub fn start(
        alloc: Global,
        names: &'a Names,
        place: u64,
        conditions: &'a [Cond],
        first: State<K>,
    ) -> StreamCheck<'a, K>
        requires place { place ≤ 2 ^ 62 }
        requires objects { length names.now.objects ≡ length first }
        requires dims { names.now.dims ≡ K }
        requires fits { AllFit conditions.now first }
        ensures checking { IsChecking first.entry K result.feeder result.checker result.log [] [] }
        ensures names { result.feeder.names.now ≡ names.now }
        ensures place { result.feeder.place ≡ place }
        ensures conditions { result.checker.conds ≡ conditions.now }
    {
        let _dims = names.dims();
        StreamCheck {
            feeder: Feeder::start(alloc, names, place),
            checker: Checker::start(alloc, conditions, first),
            log: Log::new(alloc),
        }
    }

    /// Takes the next piece. True where the word `qed` came: then the text is a derivation, whatever comes behind.
    pub fn take(&mut self, piece: &[u8]) -> Result<bool, TextFault>
        requires k { K ≤ MAX_DIMS }
        requires ready { IsReady K self.old.feeder self.old.checker self.old.log }
        ensures checking { result ≡ Ok false → (first : List Reach) (text : List ℕ)
            (es : List EventOf)
            → IsChecking first K self.old.feeder self.old.checker self.old.log text es
            → (more : List EventOf) × IsChecking first K self.new.feeder self.new.checker
            self.new.log (text ++ piece.now) (es ++ more) }
        ensures open { result ≡ Ok false → (s : SymbolOf) × (self.new.feeder.progress ≡ Open s) }
        ensures checked { result ≡ Ok true → (first : List Reach) (text rest : List ℕ)
            (es : List EventOf)
            → IsChecking first K self.old.feeder self.old.checker self.old.log text es
            → HasChecked first K self.old.feeder.names.now self.new.checker
            ((text ++ piece.now) ++ rest) }
        ensures refused { IfErr result (λ fault. (first : List Reach) (text rest : List ℕ)
            (es : List EventOf)
            → IsChecking first K self.old.feeder self.old.checker self.old.log text es
            → HasFaultFrom self.old.feeder.names.now self.old.feeder.place
            ((text ++ piece.now) ++ rest) fault) }
        ensures names { self.new.feeder.names.now ≡ self.old.feeder.names.now }
        ensures place { self.new.feeder.place ≡ self.old.feeder.place }
        ensures conditions { self.new.checker.conds ≡ self.old.checker.conds }
    {
        let done = self.feeder.feed(piece, &mut self.log)?;
        self.check_events()?;
        Ok(done)
    }

    /// The text has ended, and is a derivation.
    pub fn finish(&mut self) -> Result<(), TextFault>
        requires k { K ≤ MAX_DIMS }
        requires ready { IsReady K self.old.feeder self.old.checker self.old.log }
        ensures checked { OnOk result ((first : List Reach) (text : List ℕ) (es : List EventOf)
            → IsChecking first K self.old.feeder self.old.checker self.old.log text es
            → HasChecked first K self.old.feeder.names.now self.new.checker text) }
        ensures refused { IfErr result (λ fault. (first : List Reach) (text : List ℕ)
            (es : List EventOf)
            → IsChecking first K self.old.feeder self.old.checker self.old.log text es
            → HasFaultFrom self.old.feeder.names.now self.old.feeder.place text fault) }
        ensures conditions { self.new.checker.conds ≡ self.old.checker.conds }
    {
        self.feeder.finish(&mut self.log)?;
        self.check_events()?;
        Ok(())
    }

    /// The answer to a text that was checked whole.
    pub fn verdict(&self) -> Checked
        ensures { (names : NameTable) (first : List Reach) (text : List ℕ)
            → HasChecked first K names self.now.checker text
            → IsDecided names self.now.checker.conds first text result }
    {
        self.checker.verdict()
    }

    // Checks the events that are recorded, and lets them go.
    fn check_events(&mut self) -> Result<(), AllocError>
        requires k { K ≤ MAX_DIMS }
        requires events { All (EventFits (length self.old.checker.machine.state) K)
            self.old.log.events }
        requires count { self.old.checker.machine.nodes + length self.old.log.events < 2 ^ 64 }
        ensures taken { OnOk result ((first : List Reach) (es : List EventOf)
            → HasTaken self.old.checker.conds first es self.old.checker.machine
            → HasTaken self.old.checker.conds first (es ++ self.old.log.events)
            self.new.checker.machine) }
        ensures conditions { self.new.checker.conds ≡ self.old.checker.conds }
        ensures objects { length self.new.checker.machine.state
            ≡ length self.old.checker.machine.state }
        ensures nodes { self.new.checker.machine.nodes
            ≤ self.old.checker.machine.nodes + length self.old.log.events }
        ensures feeder { self.new.feeder ≡ self.old.feeder }
        ensures empty { OnOk result (self.new.log.events ≡ []) }
    {
        give_all(&mut self.checker, self.log.events())?;
        self.log.cut_back(0);
        Ok(())
    }
}
