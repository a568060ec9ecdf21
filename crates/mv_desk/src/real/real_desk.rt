// The desk of the machine's own files.
use super::channel::Channel;
use super::channels::Channels;
use super::used_files::UsedFiles;
use crate::counts::Counts;
use crate::{Desk, Failed, Slot};
use std::io::{Read, Write};
use std::rt::Files;

/// Files of the machine, and standard output as the report. It tells no contents and no names.
#[derive(Drop)]
pub struct RealDesk<R: Files + Print + Drop> {
    rt: R,
    used: UsedFiles,
    channels: Channels<R::File>,
    counts: Counts,
}

impl<R: Files + Print + Drop> RealDesk<R> {
    ghost use Rattle.mv_desk.specs.View.{HasReport};

    /// Nothing is open but the report.
    pub fn new(rt: R) -> Self
        ensures { HasReport (⟦<RealDesk<R> as Desk>⟧.seen result) }
    {
        RealDesk {
            rt,
            used: UsedFiles::new(),
            channels: Channels {
                graph: Channel::Closed,
                other: Channel::Closed,
                clauses: Channel::Closed,
                algebra: Channel::Closed,
                report: Channel::Standard,
            },
            counts: Counts::new(),
        }
    }
}

impl<R: Files + Print + Drop> Desk for RealDesk<R> {
    ghost use Rattle.mv_desk.specs.Real.{real_view};

    ghost seen = { λ d. real_view d.channels d.counts };

    fn open_file(&mut self, slot: Slot, name: &str) -> Result<(), Failed> {
        self.counts.count_opened();
        match self.used.open(&self.rt, name) {
            Ok(file) => {
                self.channels.put(slot, Channel::Reading(file));
                Ok(())
            }
            Err(_) => {
                self.counts.count_read_fault();
                Err(Failed)
            }
        }
    }

    fn read(&mut self, slot: Slot, into: &mut [u8]) -> Result<usize, Failed> {
        let mut channel = self.channels.take(slot);
        let count = channel.read(into);
        self.channels.put(slot, channel);
        match count {
            Ok(count) => Ok(count),
            Err(_) => {
                self.counts.count_read_fault();
                Err(Failed)
            }
        }
    }

    fn create_file(&mut self, slot: Slot, name: &str) -> Result<(), Failed> {
        match self.used.create(&self.rt, name) {
            Ok(file) => {
                self.channels.put(slot, Channel::Writing(file));
                Ok(())
            }
            Err(_) => {
                self.counts.count_write_fault();
                Err(Failed)
            }
        }
    }

    fn write(&mut self, slot: Slot, piece: &[u8]) -> Result<usize, Failed> {
        let mut channel = self.channels.take(slot);
        let count = channel.write(&self.rt, piece);
        self.channels.put(slot, channel);
        match count {
            Ok(0) if !piece.is_empty() => {
                self.counts.count_write_fault();
                Err(Failed)
            }
            Ok(count) => Ok(count),
            Err(_) => {
                self.counts.count_write_fault();
                Err(Failed)
            }
        }
    }
}
