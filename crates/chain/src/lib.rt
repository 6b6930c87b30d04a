// Entries chained by their keys, the latest first, so that a search for an entry passes only those of its own key.
#![tactic(auto)]

ghost use Rattle.std.specs.Prelude.{◌≡◌, ℕ, ◌+◌, ◌<◌, length};
ghost use Rattle.chain.specs.Chain.{Chained, key_count, most_entries};
ghost use Rattle.chain.specs.Key.{key};

// How many keys there are.
pub const KEYS: usize = 256;

// The most entries that are chained.
pub const ENTRIES: usize = 512;

// The key of a list of this length with these last three entries.
pub fn key(size: usize, third: usize, second: usize, last: usize) -> usize
    ensures { result ≡ key size third second last }
{
    (last % KEYS + 16 * (second % KEYS) + 37 * (third % KEYS) + size % KEYS) % KEYS
}

// Chains entry k, of this key, before the others of the key.
pub fn insert(heads: &mut [usize; KEYS], links: &mut [usize; ENTRIES], k: usize, key: usize)
    requires heads { length heads.old ≡ key_count }
    requires links { length links.old ≡ most_entries }
    requires entry { k < most_entries }
    requires key { key < key_count }
    ensures { (key_of : ℕ → ℕ) → key_of k ≡ key → Chained key_of k heads.old links.old → Chained key_of (k + 1) heads.new links.new }
{
    links[k] = heads[key];
    heads[key] = k + 1;
}
