//! What holds of the texts of all derivations over a table of names.

ghost use Rattle.std.specs.Prelude.{◌≤◌, length};
ghost use Rattle.std.specs.List.{All};
ghost use Rattle.derivation.specs.Nodes.{Node, node_events};
ghost use Rattle.derivation_text.specs.Lines.{derivation_text, AreNamed};
ghost use Rattle.derivation_reading.specs.FirstFault.{most_bytes, IsText};
ghost use Rattle.derivation_round_trip.specs.Limits.{IsLimited};

use geo_tokens::names::Names;

/// What holds of the texts of derivations: where its events have names and their numbers are within
/// the limit of texts, the text of a derivation that is not too long is read as the same events. It
/// does nothing.
pub fn derivations_are_read_back(names: &Names)
    ensures { (root : Node) → AreNamed names.now 0 (node_events root)
        → All IsLimited (node_events root)
        → length (derivation_text names.now (node_events root)) ≤ most_bytes
        → IsText names.now (derivation_text names.now (node_events root)) (node_events root) }
{
    let _dims = names.dims();
}
