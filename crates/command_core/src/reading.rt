// The graph of a file, with the answers that commands have in common.
ghost use Rattle.std.specs.Prelude.{◌≡◌, ◌≢◌, IfErr, IfOk, IfSome};
ghost use Rattle.aiger_reader.specs.Opening.{OpensOnly};
ghost use Rattle.aiger_reader.specs.Refusals.{SpellsWithin};
ghost use Rattle.graph_core.specs.Aiger.Sizes.{IsSizedAs};
ghost use Rattle.graph_core.specs.Graph.{IsBuilt};
ghost use Rattle.mv_desk.specs.Calls.{Inspects};
ghost use Rattle.mv_desk.specs.View.{bytes_under};
ghost use Rattle.mv_desk.specs.declared.slot.Slot.TheVariants as at;
ghost use Rattle.command_core.specs.Stopping.{IsGraphStop, IsStop};

use crate::stop::Stop;
use aiger_reader::read_file;
use graph_core::{Graph, Profile};
use mv_desk::{Desk, Limits, Slot};
use std::alloc::Global;

/// Opens a file in any slot but the report's, and reads the graph that it spells, as `aiger_reader::read_file` does.
pub fn read_graph<D: Desk>(
    alloc: Global,
    desk: &mut D,
    slot: Slot,
    name: &str,
    profile: Profile,
    limits: &Limits,
) -> Result<Graph, Stop>
    requires { at.Report ≢ slot }
    ensures spelled { IfOk result (λ graph. IfSome (bytes_under (D.seen desk.old) name.now)
        (λ file. SpellsWithin profile limits.now.graph file graph)) }
    // whether or not the desk tells the bytes
    ensures sized { IfOk result (IsSizedAs profile) }
    ensures built { IfOk result IsBuilt }
    ensures refused { IfErr result (IsStop (IsGraphStop slot profile limits.now.graph
        (bytes_under (D.seen desk.old) name.now)) (D.seen desk.old) (D.seen desk.new)) }
    ensures opens { OpensOnly slot (D.seen desk.old) (D.seen desk.new) result }
    ensures inspects { Inspects (D.seen desk.old) (D.seen desk.new) }
{
    match read_file(alloc, desk, slot, name, profile, limits) {
        Ok(graph) => {
            // a graph is built without faults, whatever is known of its file
            let _gates = graph.gates();
            Ok(graph)
        }
        Err(fail) => Err(Stop::of_read(slot, fail)),
    }
}
