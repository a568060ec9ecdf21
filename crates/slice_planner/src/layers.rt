// Groups of gates in layers, counted from the outputs.
use crate::grouping::gate_of;
use graph_core::Memory;
use ripple_graft::Extended;
use std::alloc::Global;

/// The places of the groups: first those that no output rests on, and then layer by layer those that outputs rest on.
///
/// A group's layer is the longest way from an output down to it. A group that reads itself through others has no place.
pub(crate) fn in_layers(
    alloc: Global,
    extended: &Extended<'_>,
    groups: &[Vec<u32>],
) -> Result<Vec<usize>, Memory> {
    let mut queue = Queue::new(alloc, extended, groups)?;
    queue.push_unread()?;
    queue.take_all(extended, groups)?;
    for k in 0..extended.graph().outputs() {
        queue.read_less(extended.new_output(k).var(), usize::MAX)?;
    }
    queue.take_all(extended, groups)?;
    Ok(queue.order)
}

/// Groups in the order in which all that reads them comes first, as far as that is known.
#[derive(Drop)]
struct Queue {
    /// by variable: the place of its gate's group
    group_of: Vec<usize>,
    /// by place: of how many operands of gates outside, not taken yet, and of how many outputs its gates are
    readers: Vec<u64>,
    /// the places of the groups without readers
    order: Vec<usize>,
    /// how many of them were taken
    taken: usize,
}

impl Queue {
    // All readers, and no group in the queue.
    fn new(alloc: Global, extended: &Extended<'_>, groups: &[Vec<u32>]) -> Result<Queue, Memory> {
        let mut queue = Queue {
            group_of: places_by_variables(alloc, extended, groups)?,
            readers: vec![in alloc; 0u64; groups.len()]?,
            order: Vec::new(alloc),
            taken: 0,
        };
        for gate in extended.gates() {
            let reader = queue.place_of(gate.v);
            queue.read_more(gate.left.var(), reader);
            queue.read_more(gate.right.var(), reader);
        }
        for k in 0..extended.graph().outputs() {
            queue.read_more(extended.new_output(k).var(), usize::MAX);
        }
        Ok(queue)
    }

    // Queues the groups that nothing reads.
    fn push_unread(&mut self) -> Result<(), Memory> {
        for (place, readers) in self.readers.iter().enumerate() {
            if *readers == 0 {
                self.order.push(place)?;
            }
        }
        Ok(())
    }

    // Takes the groups in the queue, and those that no reader is left of then.
    fn take_all(&mut self, extended: &Extended<'_>, groups: &[Vec<u32>]) -> Result<(), Memory> {
        for _ in 0..groups.len() {
            match self.order.get(self.taken) {
                None => return Ok(()),
                Some(place) => {
                    let place = *place;
                    self.taken += 1;
                    if let Some(group) = groups.get(place) {
                        self.take(extended, group, place)?;
                    }
                }
            }
        }
        Ok(())
    }

    // Takes a group: its gates read their operands no more.
    fn take(&mut self, extended: &Extended<'_>, group: &[u32], place: usize) -> Result<(), Memory> {
        for v in group {
            if let Some(gate) = gate_of(extended, *v) {
                self.read_less(gate.left.var(), place)?;
                self.read_less(gate.right.var(), place)?;
            }
        }
        Ok(())
    }

    // One more reader of a variable, in the group at a place or an output.
    fn read_more(&mut self, v: u32, reader: usize) {
        let place = self.place_of(v);
        if place != reader {
            if let Some(readers) = self.readers.get_mut(place) {
                *readers = readers.saturating_add(1);
            }
        }
    }

    // One less, and where none is left the group is queued.
    fn read_less(&mut self, v: u32, reader: usize) -> Result<(), Memory> {
        let place = self.place_of(v);
        if place != reader {
            if let Some(readers) = self.readers.get_mut(place) {
                *readers = readers.saturating_sub(1);
                if *readers == 0 {
                    self.order.push(place)?;
                }
            }
        }
        Ok(())
    }

    // The place of the group that has a variable's gate, past all groups where none has.
    fn place_of(&self, v: u32) -> usize {
        match self.group_of.get(v as usize) {
            Some(place) => *place,
            None => usize::MAX,
        }
    }
}

// By variable: the place of the group that has its gate, past all groups where none has.
fn places_by_variables(
    alloc: Global,
    extended: &Extended<'_>,
    groups: &[Vec<u32>],
) -> Result<Vec<usize>, Memory> {
    let mut places = vec![in alloc; usize::MAX; extended.max() as usize + 1]?;
    for (place, group) in groups.iter().enumerate() {
        for v in group {
            if let Some(known) = places.get_mut(*v as usize) {
                *known = place;
            }
        }
    }
    Ok(places)
}
