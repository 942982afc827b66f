// The table and places of RC4, and the loops over them.

ghost use Rattle.std.specs.Prelude.{◌≡◌, ◌<◌, ◌≤◌, length};
ghost use Rattle.std.specs.List.{range_with_len};
ghost use Rattle.rc4_stream.specs.Rc4.{next_state, byte_of};
ghost use Rattle.rc4_stream.specs.Steps.{state_at, combined_from, advanced};

/// The table of 256 numbers and the places i and j.
#[derive(Drop)]
pub struct Cells {
    pub table: [u8; 256],
    pub i: u8,
    pub j: u8,
}

/// The numbers 0 to 255 in order.
fn ordered_table() -> [u8; 256]
    ensures { result ≡ range_with_len 0 256 }
{
    let mut table = [0; 256];
    for i in 0..256 {
        table[i] = i as u8;
    }
    table
}

impl Cells {
    ghost use Rattle.rc4_stream.specs.CellStates.{state_of};
    ghost use Rattle.rc4_stream.specs.Rc4.{state_after};

    /// The state before the first byte of a key.
    pub fn scheduled(key: &[u8]) -> Cells
        requires { 0 < length key.now }
        ensures { state_of result ≡ state_after key.now 0 }
    {
        let mut table = ordered_table();
        let mut j = 0u8;
        for i in 0..256 {
            let entry = table[i];
            j = j.wrapping_add(entry).wrapping_add(key[i % key.len()]);
            table[i] = table[j as usize];
            table[j as usize] = entry;
        }
        Cells { table, i: 0, j: 0 }
    }

    /// Combines bytes by exclusive or with the next bytes of the key stream.
    pub fn combine(&mut self, bytes: &mut [u8])
        ensures bytes { bytes.new ≡ combined_from (state_of self.old) bytes.old }
        ensures state { state_of self.new ≡ advanced (length bytes.old) (state_of self.old) }
    {
        // The places are local, so that they stay in registers beside the writes to the bytes. Eight bytes a turn: the
        // compiler writes a piece of a length that it knows out without a loop.
        let mut i = self.i;
        let mut j = self.j;
        let mut at = 0;
        while bytes.len() - at >= 8 {
            combine_piece(&mut self.table, &mut i, &mut j, &mut bytes[at..at + 8]);
            at += 8;
        }
        combine_piece(&mut self.table, &mut i, &mut j, &mut bytes[at..]);
        self.i = i;
        self.j = j;
    }
}

/// Combines a piece of the bytes with the next bytes of the key stream.
#[inline(always)]
fn combine_piece(table: &mut [u8; 256], i: &mut u8, j: &mut u8, bytes: &mut [u8])
    ensures bytes { bytes.new ≡ combined_from (state_at table.old i.old j.old) bytes.old }
    ensures state { state_at table.new i.new j.new
        ≡ advanced (length bytes.old) (state_at table.old i.old j.old) }
{
    for byte in bytes.iter_mut() {
        *byte ^= next_byte(table, i, j);
    }
}

/// Makes the next byte of the key stream.
#[inline(always)]
fn next_byte(table: &mut [u8; 256], i: &mut u8, j: &mut u8) -> u8
    ensures state { state_at table.new i.new j.new ≡ next_state (state_at table.old i.old j.old) }
    ensures byte { result ≡ byte_of (state_at table.new i.new j.new) }
{
    *i = i.wrapping_add(1);
    let first = table[*i as usize];
    *j = j.wrapping_add(first);
    let second = table[*j as usize];
    table[*i as usize] = second;
    table[*j as usize] = first;
    table[first.wrapping_add(second) as usize]
}
