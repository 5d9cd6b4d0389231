// Along the words of a layout: the test of a book, its entries, and its bytes.
// A word is 0 at an entry and else the due byte plus one, as layout writes it: `slot_of`, of which the contracts here speak, has this form.
ghost use Rattle.std.specs.Prelude.{◌≡◌, not, ◌∷◌, [], ◌+◌, ◌<◌, ◌≤◌, length, drop};
ghost use Rattle.model.specs.Book.{holes, well_formed, entries_in, filled};
ghost use Rattle.model.specs.Calls.{front};
ghost use Rattle.append.specs.Appends.{Appends};
ghost use Rattle.layout.specs.Slots.{slot_of, slots_of};

// The byte is not the one that is due.
fn differs(slot: u16, byte: u8) -> bool
    ensures { result ≡ not (well_formed (slot_of slot ∷ []) (byte ∷ [])) }
{
    slot != 0 && byte as u16 != (slot - 1) % 256
}

// 10: the book is too long or too short, or a byte is not the one that is due.
pub fn is_malformed(slots: &[u16], n: usize, book: &[u8]) -> bool
    requires { n ≤ length slots.now }
    ensures { result ≡ not (well_formed (slots_of slots.now n) book.now) }
{
    if book.len() != n {
        return true;
    }
    slots[..n]
        .iter()
        .zip(book)
        .any(|(slot, byte)| differs(*slot, *byte))
}

// The byte goes to e if the slot is an entry: answers where the next entry goes.
fn take_entry(tables: &mut [u8], e: usize, slot: u16, byte: u8) -> usize
    requires { e + length (entries_in (slot_of slot ∷ []) (byte ∷ [])) ≤ length tables.old }
    ensures { Appends tables.old e (entries_in (slot_of slot ∷ []) (byte ∷ [])) result tables.new }
{
    if slot != 0 {
        return e;
    }
    tables[e] = byte;
    e + 1
}

// The entries of a book go to the front of the tables.
pub fn take_entries(tables: &mut [u8], slots: &[u16], n: usize, book: &[u8])
    requires n_in_bounds { (n ≤ length slots.now) × (n ≤ length book.now) }
    requires n_in_bounds_2 { holes (slots_of slots.now n) ≤ length tables.old }
    ensures { tables.new ≡ front (entries_in (slots_of slots.now n) book.now) tables.old }
{
    let mut e = 0;
    for k in 0..n {
        e = take_entry(tables, e, slots[k], book[k]);
    }
}

// The byte of a book at this slot, whose entry, if it is one, is the next.
fn byte_of(slot: u16, tables: &[u8], e: usize) -> u8
    requires { e + holes (slot_of slot ∷ []) ≤ length tables.now }
    ensures { result ∷ [] ≡ filled (slot_of slot ∷ []) (drop e tables.now) }
{
    if slot == 0 {
        tables[e]
    } else {
        ((slot - 1) % 256) as u8
    }
}

// Where the next entry is, behind this slot.
fn entry_after(slot: u16, e: usize) -> usize
    requires { e < 65536 }
    ensures { result ≡ e + holes (slot_of slot ∷ []) }
{
    if slot == 0 { e + 1 } else { e }
}

// The book of these entries goes to the front of the buffer.
pub fn put_bytes(book: &mut [u8], slots: &[u16], n: usize, tables: &[u8])
    requires n_in_bounds { (n ≤ length slots.now) × (n ≤ length book.old) }
    requires n_in_bounds_2 { holes (slots_of slots.now n) ≤ length tables.now }
    requires tables_len_bound { length tables.now < 65536 }
    ensures { book.new ≡ front (filled (slots_of slots.now n) tables.now) book.old }
{
    let mut e = 0;
    for k in 0..n {
        let slot = slots[k];
        book[k] = byte_of(slot, tables, e);
        e = entry_after(slot, e);
    }
}
