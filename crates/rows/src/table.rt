// Tables of 256 bits: a bit for each number below 16, a port's or a group's, of each of 16 switches. They are bare arrays, as the
// contracts of recordrow and scan, which lend them, say.
ghost use Rattle.std.specs.Prelude.{◌≡◌, ◌<◌};
ghost use Rattle.planes.specs.Plane.{bit};
ghost use Rattle.planes.specs.Lines.{BitSet};
ghost use Rattle.rows.specs.Table.{table_bit};

// The bit of number k of a switch.
fn table_bit(sw: u8, k: u8) -> usize
    ensures { result ≡ table_bit sw k }
{
    usize::from(sw) * 16 + usize::from(k)
}

// The bit of number k of a switch is set.
pub fn has(table: &[u8; 32], sw: u8, k: u8) -> bool
    requires { (sw < 16) × (k < 16) }
    ensures { result ≡ bit table.now (table_bit sw k) }
{
    planes::get_bit(table, table_bit(sw, k))
}

// Sets the bit of number k of a switch.
pub fn set(table: &mut [u8; 32], sw: u8, k: u8)
    requires { (sw < 16) × (k < 16) }
    ensures { BitSet (table_bit sw k) table.old table.new }
{
    planes::set_bit(table, table_bit(sw, k));
}
