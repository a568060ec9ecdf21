// How many more bytes a file and its line may have.
ghost use Rattle.std.specs.Prelude.{◌≡◌, decimal};
ghost use Rattle.mv_text.specs.LineReading.{lengths_of};
ghost use Rattle.pair_limits.specs.Rooms.{Takes, behind_byte, whole_room};

use mv_desk::Limits;
use mv_nums::print;

/// What is left of the limits after the front of a text.
#[derive(Clone, Copy)]
pub(crate) struct Room {
    /// how many more bytes the file may have
    pub(crate) file: u64,
    /// and the line at its end
    pub(crate) line: u64,
    /// how many a line may have
    pub(crate) most: u64,
    /// whether there were more already
    pub(crate) over: bool,
}

impl Room {
    /// That of a certificate, before its first byte.
    pub(crate) fn new(limits: &Limits) -> Room
        ensures { result ≡ whole_room (lengths_of limits.now) }
    {
        Room {
            file: limits.certificate,
            line: limits.line,
            most: limits.line,
            over: false,
        }
    }

    /// Takes a piece of the text.
    pub(crate) fn put(&mut self, piece: &[u8])
        ensures { Takes piece.now self.old self.new }
    {
        for &byte in piece {
            self.put_byte(byte);
        }
    }

    /// Takes a decimal numeral.
    pub(crate) fn put_number(&mut self, number: u128)
        ensures { Takes (decimal number) self.old self.new }
    {
        let mut text = [0u8; 40];
        let len = print(number, &mut text);
        self.put(&text[..len]);
    }

    // A line feed isn't counted as one of its line.
    fn put_byte(&mut self, byte: u8)
        ensures { self.new ≡ behind_byte self.old byte }
    {
        let starts = byte == b'\n';
        if self.file == 0 || (self.line == 0 && !starts) {
            self.over = true;
        } else {
            self.file -= 1;
            self.line = if starts { self.most } else { self.line - 1 };
        }
    }
}
