// What has come of a line that has not ended.
ghost use Rattle.std.specs.Prelude.{◌≡◌, []};
ghost use Rattle.lines.specs.Model.{part};
ghost use Rattle.lines.specs.Feeding.{kept_all};
ghost use Rattle.lines.specs.Rows.{pending_of, none_pending, row_in};

use crate::Rest;
use reading::{Row, read, unreadable};

impl Rest {
    // Nothing of a line.
    pub fn empty() -> Rest
        ensures { pending_of result ≡ part [] }
    {
        Rest {
            fill: 0,
            bytes: [0; 1024],
        }
    }

    // Whether nothing has come of the line.
    pub fn is_empty(&self) -> bool
        ensures { result ≡ none_pending (pending_of self.now) }
    {
        self.fill == 0
    }

    // The bytes that follow come too.
    pub fn push(&mut self, more: &[u8])
        ensures { pending_of self.new ≡ kept_all (pending_of self.old) more.now }
    {
        if 1024 < self.fill {
            return;
        }
        if 1024 - self.fill < more.len() {
            self.fill = 1025;
            return;
        }
        let end = self.fill + more.len();
        self.bytes[self.fill..end].copy_from_slice(more);
        self.fill = end;
    }

    // The row of the line, which ends; one that is too long cannot be read.
    fn row(&self) -> Row
        ensures { result ≡ row_in (pending_of self.now) }
    {
        self.bytes.get(..self.fill).map_or_else(unreadable, read)
    }

    // The row of the line, which ends with the bytes that follow; nothing is left of it. Where none came before, it is
    // read where these stand, and no byte is copied.
    pub fn ended(&mut self, more: &[u8]) -> Row
        ensures row { result ≡ row_in (kept_all (pending_of self.old) more.now) }
        ensures left { pending_of self.new ≡ part [] }
    {
        if 0 < self.fill {
            self.push(more);
            let row = self.row();
            self.fill = 0;
            return row;
        }
        if 1024 < more.len() {
            return unreadable();
        }
        read(more)
    }
}
