// The rows that calls make and the bytes that an FCB takes from a row: what 15, 22, 23 and moves share.
#![tactic(auto)]

ghost use Rattle.std.specs.Prelude.{◌≡◌, ◌+◌, ◌*◌, ◌/◌, ◌%◌, ◌≤◌, ◌<◌, length};
ghost use Rattle.lists.specs.Splice.{splice};
ghost use Rattle.format.specs.Entries.{extent_of};
ghost use Rattle.format.specs.Fcb.{fcb_bytes};
ghost use Rattle.model.specs.Entering.{copied, interface_cleared, entered, made_row_rule, next_row_rule, renamed_row_rule};

// FCB bytes 1 to 31 become the row's.
pub fn copy_fields(fcb: &mut [u8], row: [u8; 32])
    requires { length fcb.old ≡ fcb_bytes }
    ensures { fcb.new ≡ copied fcb.old row }
{
    lists::put(fcb, 1, &row[1..32]);
}

// The row with the high bits of bytes 5 to 8 cleared: the interface attributes are the caller's, not the file's.
fn clear_interface(row: [u8; 32]) -> [u8; 32]
    ensures { result ≡ interface_cleared row }
{
    let mut r = row;
    for i in 5..9 {
        r[i] %= 128;
    }
    r
}

// FCB bytes 1 to 31 become the entry's, as by 15, of the entry's own extent: on this disk it covers no other.
pub fn enter(fcb: &mut [u8], row: [u8; 32])
    requires { length fcb.old ≡ fcb_bytes }
    ensures { fcb.new ≡ entered fcb.old row (extent_of row) }
{
    copy_fields(fcb, clear_interface(row));
}

// The row of a file made by 22.
pub fn made_row(user: u8, fcb: &[u8]) -> [u8; 32]
    requires { length fcb.now ≡ fcb_bytes }
    ensures { result ≡ made_row_rule user fcb.now }
{
    let mut r = [0u8; 32];
    r[0] = user;
    for i in 0..format::NAME_BYTES {
        r[1 + i] = fcb[1 + i] % 128;
    }
    r[12] = fcb[12];
    r
}

// The row of an extent that a move makes, from the present entry's.
pub fn next_row(row: [u8; 32], ext: usize) -> [u8; 32]
    requires { ext < 8192 }
    ensures { result ≡ next_row_rule row ext }
{
    let mut r = [0u8; 32];
    lists::put(&mut r, 0, &row[0..12]);
    // The numbers fit: the casts lose nothing.
    r[12] = (ext % 32) as u8;
    r[14] = (ext / 32) as u8;
    r
}

// A name byte of 23: the new seven bits, the old attribute.
fn renamed_byte(old: u8, new: u8) -> u8
    ensures { result ≡ old / 128 * 128 + new % 128 }
{
    old / 128 * 128 + new % 128
}

// The row with the name of FCB bytes 17 to 27.
pub fn renamed_row(fcb: &[u8], row: [u8; 32]) -> [u8; 32]
    requires { length fcb.now ≡ fcb_bytes }
    ensures { result ≡ renamed_row_rule fcb.now row }
{
    let mut r = row;
    for i in 0..format::NAME_BYTES {
        r[1 + i] = renamed_byte(row[1 + i], fcb[17 + i]);
    }
    r
}
