//! A cache of answers for repeated asks.

ghost use Rattle.std.specs.Prelude.{◌≡◌, ◌≤◌, ◌⊎◌, ◌+◌, [], length, IfOk, IfSome, Contains};
ghost use Rattle.module_map.specs.Private.Cached.{cached_under, after_lookup, with_answer};
ghost use Rattle.module_map.specs.Private.Serials.{CacheEntry};

use addr_table::Place;
use lru::LruCache;
use std::alloc::{AllocError, Global};
use std::marker::Model;
use std::num::NonZeroUsize;

/// The key of a cached answer.
#[derive(Clone, Copy, Debug, PartialEq, Eq, Hash)]
pub struct CacheKey {
    /// The serial number of a load.
    pub serial: u64,
    /// A link address.
    pub link: u64,
}

/// The number of answers that a full cache does not store before it stores one.
const SKIPPED: u8 = 3;

/// An LRU cache of at most `capacity` answers. If it is full, it stores every fourth new answer, so
/// that addresses that are looked up once leave most of the other answers in the cache.
#[derive(Drop)]
pub struct Cache {
    answers: Option<LruCache<CacheKey, Option<Place>>>,
    capacity: usize,
    /// The number of answers that were not stored since the last one that was.
    skipped: u8,
}

impl Model for Cache {
    ghost use Rattle.std.specs.Prelude.{◌≡◌, ◌≤◌, [], length};
    ghost use Rattle.std.specs.Option.{option_map_or, ForSome};
    ghost use Rattle.module_map.specs.Private.Serials.{CacheEntries};

    ghost Value = { CacheEntries };

    ghost view = { λ c. record {
      entries = option_map_or (λ answers. answers.entries) c.answers [];
      capacity = c.capacity;
    } };

    ghost invariant = { λ c. ForSome c.answers (λ answers.
        (answers.cap ≡ c.capacity) × (length answers.entries ≤ answers.cap)) };
}

/// Returns the cached answer for a key and makes it the most recently used one.
fn recall(answers: &mut LruCache<CacheKey, Option<Place>>, key: CacheKey) -> Option<Option<Place>>
    ensures value { result ≡ cached_under key answers.old.entries }
    ensures order { answers.new.entries ≡ after_lookup key answers.old.entries }
    ensures found { IfSome result (λ place. Contains answers.old.entries (key, place)) }
    ensures cached { (e : CacheEntry) → Contains answers.new.entries e →
        Contains answers.old.entries e }
    ensures count { length answers.new.entries ≡ length answers.old.entries }
    ensures capacity { answers.new.cap ≡ answers.old.cap }
{
    answers.get(&key).copied()
}

/// Caches an answer if memory allows. If the cache is full, evicts the least recently used answer.
fn remember(answers: &mut LruCache<CacheKey, Option<Place>>, key: CacheKey, place: Option<Place>)
    ensures change { (answers.new.entries ≡ answers.old.entries)
        ⊎ (answers.new.entries ≡ with_answer key place
        (record { entries = answers.old.entries; capacity = answers.old.cap })) }
    ensures cached { (e : CacheEntry) → Contains answers.new.entries e →
        Contains answers.old.entries e ⊎ (e ≡ (key, place)) }
    ensures grows { (length answers.old.entries ≤ length answers.new.entries)
        × (length answers.new.entries ≤ length answers.old.entries + 1) }
    ensures within { length answers.new.entries ≤ answers.new.cap }
    ensures capacity { answers.new.cap ≡ answers.old.cap }
{
    let _count = answers.len();
    let _ = answers.put(key, place);
}

impl Cache {
    /// Creates a cache of at most `capacity` answers; 0 disables the cache.
    pub fn new(alloc: Global, capacity: usize) -> Result<Cache, AllocError>
        ensures { IfOk result (λ cache. cache ≡ record { entries = []; capacity = capacity }) }
    {
        let answers = match NonZeroUsize::new(capacity) {
            None => None,
            Some(capacity) => Some(LruCache::new(alloc, capacity)?),
        };
        Ok(Cache {
            answers,
            capacity,
            skipped: 0,
        })
    }

    /// Returns the number of cached answers.
    pub fn len(&self) -> usize
        ensures count { result ≡ length self.now.entries }
        ensures within { result ≤ self.now.capacity }
    {
        match &self.answers {
            None => 0,
            Some(answers) => answers.len(),
        }
    }

    pub fn capacity(&self) -> usize
        ensures { result ≡ self.now.capacity }
    {
        self.capacity
    }

    /// Returns the cached answer for a key and makes it the most recently used one.
    pub fn get(&mut self, key: CacheKey) -> Option<Option<Place>>
        ensures value { result ≡ cached_under key self.old.entries }
        ensures order { self.new.entries ≡ after_lookup key self.old.entries }
        ensures found { IfSome result (λ place. Contains self.old.entries (key, place)) }
        ensures cached { (e : CacheEntry) → Contains self.new.entries e →
            Contains self.old.entries e }
        ensures count { length self.new.entries ≡ length self.old.entries }
        ensures within { length self.new.entries ≤ self.new.capacity }
        ensures capacity { self.new.capacity ≡ self.old.capacity }
    {
        let Some(answers) = &mut self.answers else {
            return None;
        };
        recall(answers, key)
    }

    /// Caches an answer if memory allows. If the cache is full, skips three answers of four, and
    /// evicts the least recently used answer for the fourth.
    pub fn put(&mut self, key: CacheKey, place: Option<Place>)
        ensures change { (self.new.entries ≡ self.old.entries)
            ⊎ (self.new.entries ≡ with_answer key place self.old) }
        ensures cached { (e : CacheEntry) → Contains self.new.entries e →
            Contains self.old.entries e ⊎ (e ≡ (key, place)) }
        ensures grows { (length self.old.entries ≤ length self.new.entries)
            × (length self.new.entries ≤ length self.old.entries + 1) }
        ensures within { length self.new.entries ≤ self.new.capacity }
        ensures capacity { self.new.capacity ≡ self.old.capacity }
    {
        if self.len() == self.capacity && self.skipped < SKIPPED {
            self.skipped += 1;
            return;
        }
        self.skipped = 0;
        let Some(answers) = &mut self.answers else {
            return;
        };
        remember(answers, key, place);
    }
}
