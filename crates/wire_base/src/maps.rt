//! Maps as lists of entries, a key and a value each, of which the first of a key counts. Keys are numbers, or names in
//! any case.

ghost use Rattle.std.specs.Prelude.{◌≡◌, ◌<◌, Bool, false, length, IfOk, IfSome, MatchOption, None, Some, List as list, ◌++◌, ◌∷◌, [], slice_set, option_copied};
ghost use Rattle.wire_base.specs.Maps.{place_of, has_key, lookup, put, put_item, take_out, same_number, IsMap, IsSameness};
ghost use Rattle.wire_base.specs.Names.{same_name};

use crate::list::List;
use crate::memory::NoMemory;
use crate::names::same_units;
use crate::units::Units;

/// What is sought among keys of type `K`.
trait Sought<K> {
    ghost same: { Self → K → Bool };

    /// Whether the key is the one that is sought.
    fn is_key(&self, key: &K) -> bool
        ensures { result ≡ same self.now key.now };
}

impl Sought<u32> for u32 {
    ghost use Rattle.wire_base.specs.Maps.{same_number};

    ghost same = { λ one other. same_number one other };

    fn is_key(&self, key: &u32) -> bool {
        *self == *key
    }
}

/// A name that is sought, in any case.
#[derive(Drop)]
struct NameSought<'a> {
    text: &'a [u16],
}

impl Sought<Units> for NameSought<'_> {
    ghost use Rattle.wire_base.specs.Names.{same_name};

    ghost same = { λ sought key. same_name sought.text.now key };

    fn is_key(&self, key: &Units) -> bool {
        same_units(self.text, key.units())
    }
}

/// The entries without the first of the number, and its value. It takes no memory.
pub fn take_number<V>(entries: List<(u32, V)>, key: u32) -> (List<(u32, V)>, Option<V>)
    ensures rest { result.0 ≡ take_out same_number key entries }
    ensures value { result.1 ≡ lookup same_number key entries }
{
    take(entries, &key)
}

/// The entry in place of the first of the number, or at the end. Want of memory drops the entries.
pub fn put_number<V: Drop>(
    entries: List<(u32, V)>,
    key: u32,
    value: V,
) -> Result<List<(u32, V)>, NoMemory>
    ensures { IfOk result (λ r. r ≡ put same_number key value entries) }
{
    let place = place(entries.items(), &key);
    put_in(entries, place, (key, value))
}

/// The value of the number. None exactly where no entry has it. It takes no memory.
pub fn find_number<V>(entries: &[(u32, V)], key: u32) -> Option<&V>
    ensures { option_copied result ≡ lookup same_number key entries.now }
{
    find(entries, &key)
}

/// The entries without the first of the name, and its value. It takes no memory.
pub fn take_named<V>(entries: List<(Units, V)>, key: &[u16]) -> (List<(Units, V)>, Option<V>)
    ensures rest { result.0 ≡ take_out same_name key.now entries }
    ensures value { result.1 ≡ lookup same_name key.now entries }
{
    take(entries, &NameSought { text: key })
}

/// The entry in place of the first of the name, or at the end. Want of memory drops the entries.
pub fn put_named<V: Drop>(
    entries: List<(Units, V)>,
    key: Units,
    value: V,
) -> Result<List<(Units, V)>, NoMemory>
    ensures { IfOk result (λ r. r ≡ put same_name key value entries) }
{
    let place = place(entries.items(), &NameSought { text: key.units() });
    put_in(entries, place, (key, value))
}

/// The place of the first entry of the key.
#[tactic(auto, using(crate::proofs::PlaceLaws::places))]
fn place<K, V, S: Sought<K>>(entries: &[(K, V)], sought: &S) -> Option<usize>
    ensures place { result ≡ place_of (has_key S.same sought.now) entries.now }
    ensures inside { IfSome result (λ p. p < length entries.now) }
{
    for (index, entry) in entries.iter().enumerate() {
        if sought.is_key(&entry.0) {
            return Some(index);
        }
    }
    None
}

/// The entries without the first of the key, and its value.
#[tactic(auto, using(crate::proofs::MapLaws::take_out_at, crate::proofs::MapLaws::take_out_none, crate::proofs::MapLaws::lookup_at, crate::proofs::MapLaws::lookup_none))]
fn take<K: Drop, V, S: Sought<K>>(entries: List<(K, V)>, sought: &S) -> (List<(K, V)>, Option<V>)
    ensures rest { result.0 ≡ take_out S.same sought.now entries }
    ensures value { result.1 ≡ lookup S.same sought.now entries }
{
    let Some(place) = place(entries.items(), sought) else {
        return (entries, None);
    };
    let mut items = entries.into_vec();
    let (_, value) = items.remove(place);
    (List::from_vec(items), Some(value))
}

/// The value of the key.
#[tactic(auto, using(crate::proofs::MapLaws::lookup_at, crate::proofs::MapLaws::lookup_none))]
fn find<'a, K, V, S: Sought<K>>(entries: &'a [(K, V)], sought: &S) -> Option<&'a V>
    ensures { option_copied result ≡ lookup S.same sought.now entries.now }
{
    let place = place(entries, sought)?;
    Some(&entries[place].1)
}

/// The items with this one at the place, or at the end.
fn put_in<T: Drop>(items: List<T>, place: Option<usize>, item: T) -> Result<List<T>, NoMemory>
    requires { IfSome place (λ p. p < length items) }
    ensures { IfOk result (λ r. r ≡ put_item place item items) }
{
    let mut all = items.into_vec();
    match place {
        Some(place) => all[place] = item,
        None => all.push(item)?,
    }
    Ok(List::from_vec(all))
}

/// The laws of maps, for keys of whose sameness `IsSameness` holds: what was put is found and leaves the others, what
/// was taken out is gone from a map of distinct keys and leaves the others, and both keep the keys distinct. It does
/// nothing.
pub fn what_is_put_is_found<K, V>()
    ensures put_found { (same : K → K → Bool) (key : K) (value : V) (entries : list (K × V))
        → IsSameness same → lookup same key (put same key value entries) ≡ Some value }
    ensures put_others { (same : K → K → Bool) (key other : K) (value : V) (entries : list (K × V))
        → IsSameness same → same key other ≡ false
        → lookup same other (put same key value entries) ≡ lookup same other entries }
    ensures put_distinct { (same : K → K → Bool) (key : K) (value : V) (entries : list (K × V))
        → IsSameness same → IsMap same entries → IsMap same (put same key value entries) }
    ensures taken_gone { (same : K → K → Bool) (key : K) (entries : list (K × V))
        → IsSameness same → IsMap same entries
        → lookup same key (take_out same key entries) ≡ None }
    ensures taken_others { (same : K → K → Bool) (key other : K) (entries : list (K × V))
        → IsSameness same → same key other ≡ false
        → lookup same other (take_out same key entries) ≡ lookup same other entries }
    ensures taken_distinct { (same : K → K → Bool) (key : K) (entries : list (K × V))
        → IsMap same entries → IsMap same (take_out same key entries) }
{}
