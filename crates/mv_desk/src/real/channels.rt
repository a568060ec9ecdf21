// The channels of all slots.
ghost use Rattle.std.specs.Prelude.{◌≡◌};

use super::channel::Channel;
use crate::Slot;
use std::mem;

/// The channel of each slot.
#[derive(Drop)]
pub struct Channels<F> {
    pub graph: Channel<F>,
    pub other: Channel<F>,
    pub clauses: Channel<F>,
    pub algebra: Channel<F>,
    pub report: Channel<F>,
}

impl<F: Drop> Channels<F> {
    ghost use Rattle.mv_desk.specs.Real.{channel_at, with_channel};
    ghost use Rattle.mv_desk.specs.declared.real.channel.Channel.TheVariants.{Closed};

    pub fn put(&mut self, slot: Slot, channel: Channel<F>)
        ensures { self.new ≡ with_channel self.old slot channel }
    {
        match slot {
            Slot::Graph => self.graph = channel,
            Slot::Other => self.other = channel,
            Slot::Clauses => self.clauses = channel,
            Slot::Algebra => self.algebra = channel,
            Slot::Report => self.report = channel,
        }
    }

    /// Takes a channel out, to be put again.
    pub fn take(&mut self, slot: Slot) -> Channel<F>
        ensures taken { result ≡ channel_at self.old slot }
        ensures closed { self.new ≡ with_channel self.old slot Closed }
    {
        match slot {
            Slot::Graph => mem::replace(&mut self.graph, Channel::Closed),
            Slot::Other => mem::replace(&mut self.other, Channel::Closed),
            Slot::Clauses => mem::replace(&mut self.clauses, Channel::Closed),
            Slot::Algebra => mem::replace(&mut self.algebra, Channel::Closed),
            Slot::Report => mem::replace(&mut self.report, Channel::Closed),
        }
    }
}
