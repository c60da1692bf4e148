// A turn of the scan: a record, and what is known of the others.
ghost use Rattle.format.specs.Record.{records};
ghost use Rattle.rows.specs.Groups.{There};
ghost use Rattle.recordrow.specs.Scan.{SeenOf};

use crate::Seen;
use noderows::at::At;

// A record, the groups that are there in all records, and what is known of those before it.
#[derive(Clone, Copy)]
pub struct Turn<'a, 'b> {
    pub at: At<'a>,
    pub there: &'b [u8; 32],
    pub seen: Seen,
    pub ghost groups: { There (records at.n at.store.now) there.now },
    pub ghost known: { SeenOf (records at.i at.store.now) seen },
}
