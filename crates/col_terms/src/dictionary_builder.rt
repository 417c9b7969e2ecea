//! The builder of a dictionary.
ghost use Rattle.std.specs.Prelude.{◌≡◌, ◌↔◌, bytes_eq, ◌-◌, ◌^◌, ◌<◌, ◌≤◌, min, Some, Err, true, false, ◌++◌, ◌∷◌, [], length, flat_map, sum_by, slice_get, IfSome, IfNone, IfOk, IfErr, OnOk, OnErr, IsTrue};
ghost use Rattle.std.specs.Int.{w32, to_le_bytes};
ghost use Rattle.std.specs.List.{concat, list_all, IsDistinct};
ghost use Rattle.col_model.specs.Limits.{dictionary_length};
ghost use Rattle.col_model.specs.Sound.{are_bytes};
ghost use Rattle.col_terms.specs.TermTable.{ends_from, dictionary_bytes};
ghost use Rattle.col_terms.specs.Building.{known_id, ordinals, texts, AreNumbered};
ghost use Rattle.col_terms.specs.Hashing.{hash_of, id_apart, AreHashed, IsNotApart, IsPlaced, KeepsOtherIds};

use crate::hash_chains::HashChains;
use crate::table::padded_head;
use crate::term_arena::TermArena;
use crate::term_hash::hash_of;
use col_common::{ColumnarError, Sink, serialize_bytes};
use std::alloc::{AllocError, Global};
use std::collections::BTreeMap;
use std::marker::Model;

// How many terms there may be.
const MAX_NUM_TERMS: u64 = 4_294_967_295;

// How many ids make a chain long, to which no further one is added. By hashes that nobody chose, no
// chain of a billion is long.
const LONG_CHAIN_LEN: u32 = 16;

// How many bytes a dictionary may have.
const MAX_NUM_BYTES: u64 = 4_294_967_295;

/// The number of a term, in the order in which terms came.
#[derive(Clone, Copy, Debug, Default, PartialEq, Eq, PartialOrd, Ord, Hash)]
pub struct UnorderedId(pub u32);

/// The number of a term, in the order of the terms.
#[derive(Clone, Copy, Debug, Default, PartialEq, Eq, PartialOrd, Ord, Hash)]
pub struct OrderedId(pub u32);

/// From the ids of terms to their ordinals.
#[derive(Drop)]
pub struct TermIdMapping {
    ords: Vec<u32>,
}

impl Model for TermIdMapping {
    ghost use Rattle.std.specs.Prelude.{List, ℕ};

    ghost Value = { List ℕ };

    ghost view = { λ m. m.ords.items };
}

impl TermIdMapping {
    /// The ordinal of the term of an id.
    #[inline]
    pub fn to_ord(&self, id: UnorderedId) -> OrderedId
        requires { id.0 < length self.now }
        ensures { slice_get self.now id.0 ≡ Some result.0 }
    {
        OrderedId(self.ords[id.0 as usize])
    }
}

/// Terms, each of which gets an id as it comes.
pub struct DictionaryBuilder {
    alloc: Global,
    terms: TermArena,
    chains: HashChains,
    // The ids of terms that came when the chain of their hash was long, by the order of the terms.
    apart: BTreeMap<Vec<u8>, u32>,
}

// A derived one is written out wherever a builder is let go.
impl Drop for DictionaryBuilder {
    fn drop(self) {
        let DictionaryBuilder {
            alloc: _,
            terms,
            chains,
            apart,
        } = self;
        drop(terms);
        drop(chains);
        drop(apart);
    }
}

impl Model for DictionaryBuilder {
    ghost use Rattle.std.specs.Prelude.{List, ℕ};
    ghost use Rattle.col_terms.specs.Hashing.{AreHashed};

    ghost Value = { List (List ℕ) };

    ghost view = { λ b. b.terms };

    ghost invariant = { λ b. AreHashed b.terms b.chains b.apart };
}

impl DictionaryBuilder {
    ghost use Rattle.col_common.specs.Serializing.{done};
    ghost use Rattle.col_terms.specs.Building.{is_known, Allocates, is_past_ids, IsRefusal, counted_bytes};
    ghost use Rattle.col_terms.specs.Building.{ordered, is_too_long, SerializesWithin, AreOrdered};

    /// A builder without terms.
    pub fn new(alloc: Global) -> DictionaryBuilder
        ensures { result ≡ [] }
    {
        DictionaryBuilder {
            alloc,
            terms: TermArena::new(alloc),
            chains: HashChains::new(alloc),
            apart: BTreeMap::new(alloc),
        }
    }

    /// How many terms there are.
    pub fn num_terms(&self) -> u64
        ensures { result ≡ length self.now }
    {
        self.terms.len() as u64
    }

    /// That no term is there twice.
    pub fn terms_differ(&self)
        ensures { IsDistinct bytes_eq self.now }
    {
        let _ = &self.chains;
    }

    /// That the terms are lists of bytes.
    pub fn terms_are_bytes(&self)
        ensures { IsTrue (list_all are_bytes self.now) }
    {
        self.terms.terms_are_bytes();
    }

    /// How many bytes the terms have, as far as 64 bits count.
    pub fn terms_num_bytes(&self) -> u64
        ensures { result ≡ counted_bytes self.now }
    {
        self.terms.num_bytes()
    }

    /// The id of a term, which gets the next one if it is new.
    pub fn get_or_allocate_id(&mut self, term: &[u8]) -> Result<UnorderedId, ColumnarError>
        ensures ok { IfOk result (λ id. Allocates self.old term.now id.0 self.new) }
        ensures too_large { (result ≡ Err ColumnarError.TooLarge)
            ↔ (is_past_ids self.old term.now ≡ true) }
        ensures refused { IfErr result IsRefusal }
        ensures kept { OnErr result (self.new ≡ self.old) }
    {
        let hash = hash_of(term);
        let (known, num_looks) = self.known_id(term, hash);
        if let Some(id) = known {
            return Ok(UnorderedId(id));
        }
        if self.num_terms() >= MAX_NUM_TERMS {
            return Err(ColumnarError::TooLarge);
        }
        Ok(self.allocate_id(term, hash, num_looks)?)
    }

    // The id of a term that is there, and at how many ids of its hash's chain it was looked.
    fn known_id(&self, term: &[u8], hash: u32) -> (Option<u32>, u32)
        requires { hash ≡ hash_of term.now }
        ensures { result.0 ≡ known_id self.now term.now }
    {
        find(&self.terms, &self.chains, &self.apart, term, hash)
    }

    // The next id, for a new term, behind so many in the chain of its hash.
    fn allocate_id(
        &mut self,
        term: &[u8],
        hash: u32,
        chain_len: u32,
    ) -> Result<UnorderedId, AllocError>
        requires new { is_known self.old term.now ≡ false }
        requires room { length self.old < MAX_NUM_TERMS }
        requires hash { hash ≡ hash_of term.now }
        ensures ok { IfOk result (λ id. Allocates self.old term.now id.0 self.new) }
        ensures kept { OnErr result (self.new ≡ self.old) }
    {
        let id = self.terms.len() as u32;
        self.chains.reserve()?;
        let place = place_new(self.alloc, &mut self.apart, term, hash, chain_len, id)?;
        self.terms.push(term)?;
        self.chains.push(place);
        Ok(UnorderedId(id))
    }

    /// Writes the dictionary of the terms, and gives each id the ordinal of its term.
    pub fn serialize<K: Sink>(&self, sink: &mut K) -> Result<TermIdMapping, ColumnarError>
        ensures bytes { SerializesWithin (is_too_long self.now) (K.seen sink.old) (K.seen sink.new)
            (done result) (dictionary_bytes (ordered self.now)) }
        ensures mapping { IfOk result (λ m. m ≡ ordinals self.now) }
    {
        if self.is_too_long() {
            return Err(ColumnarError::TooLarge);
        }
        let terms = self.ordered_terms()?;
        let mapping = self.map_ids(&terms)?;
        let bytes = self.table_bytes(&terms)?;
        serialize_bytes(sink, &bytes)?;
        Ok(mapping)
    }

    /// Gives each id the ordinal of its term.
    pub fn build_term_id_mapping(&self) -> Result<TermIdMapping, AllocError>
        ensures { IfOk result (λ m. m ≡ ordinals self.now) }
    {
        let terms = self.ordered_terms()?;
        self.map_ids(&terms)
    }

    // Whether 32 bits don't count the bytes of the dictionary.
    fn is_too_long(&self) -> bool
        ensures { result ≡ is_too_long self.now }
    {
        self.table_len() > MAX_NUM_BYTES
    }

    // How many bytes the dictionary takes, as far as 64 bits count.
    fn table_len(&self) -> u64
        ensures { result ≡ min (dictionary_length (ordered self.now)) (2 ^ 64 - 1) }
    {
        let ends_len = (self.terms.len() as u64 + 1) * 4;
        ends_len.saturating_add(self.terms_num_bytes())
    }

    // The terms in order, with their ids.
    fn ordered_terms(&self) -> Result<Vec<(u64, &[u8], u32)>, AllocError>
        ensures { IfOk result (λ terms. AreOrdered self.now terms.items) }
    {
        let mut terms = numbered(self.alloc, &self.terms)?;
        terms.sort_unstable();
        Ok(terms)
    }

    // Gives each id the place of its term in order.
    fn map_ids(&self, terms: &[(u64, &[u8], u32)]) -> Result<TermIdMapping, AllocError>
        requires { AreOrdered self.now terms.now }
        ensures { IfOk result (λ m. m ≡ ordinals self.now) }
    {
        let mut ords = vec![in self.alloc; 0; terms.len()]?;
        for (ord, term) in terms.iter().enumerate() {
            ords[term.2 as usize] = ord as u32;
        }
        Ok(TermIdMapping { ords })
    }

    // The bytes of the dictionary.
    #[tactic(auto, unfolding(crate::specs::TermTable::dictionary_bytes))]
    fn table_bytes(&self, terms: &[(u64, &[u8], u32)]) -> Result<Vec<u8>, AllocError>
        requires terms { AreOrdered self.now terms.now }
        requires fits { is_too_long self.now ≡ false }
        ensures { IfOk result (λ bytes. bytes.items ≡ dictionary_bytes (ordered self.now)) }
    {
        let mut bytes = Vec::with_capacity(self.alloc, self.table_len() as usize)?;
        bytes.extend_from_slice(&(terms.len() as u32).to_le_bytes())?;
        push_ends(&mut bytes, terms)?;
        push_texts(&mut bytes, terms)?;
        Ok(bytes)
    }
}

// The id of a term that is there, along the chain of its hash, or apart; and at how many ids of the
// chain it was looked.
fn find(
    terms: &TermArena,
    chains: &HashChains,
    apart: &BTreeMap<Vec<u8>, u32>,
    term: &[u8],
    hash: u32,
) -> (Option<u32>, u32)
    requires hashed { AreHashed terms.now chains.now apart.now }
    requires hash { hash ≡ hash_of term.now }
    ensures { result.0 ≡ known_id terms.now term.now }
{
    let mut num_looks: u32 = 0;
    let mut at = chains.newest(hash);
    while at > 0 {
        let id = at - 1;
        if chains.hash(id) == hash && terms.get(id) == term {
            return (Some(id), num_looks);
        }
        at = chains.older(id);
        num_looks = num_looks.saturating_add(1);
    }
    (find_apart(terms, apart, term), num_looks)
}

// The id of a term whose id stands apart.
fn find_apart(terms: &TermArena, apart: &BTreeMap<Vec<u8>, u32>, term: &[u8]) -> Option<u32>
    ensures found { IfSome result (λ id. slice_get terms.now id ≡ Some term.now) }
    ensures absent { IfNone result (IsNotApart terms.now apart.now term.now) }
{
    let id = *apart.get(term)?;
    // Where memory was wanting for the term itself, its id went to another one.
    if id as usize >= terms.len() || terms.get(id) != term {
        return None;
    }
    Some(id)
}

// Under which hash the next id is to stand, for a new term: its own one, or where that has a long
// chain, the id, and then the id stands apart too.
#[inline]
fn place_new(
    alloc: Global,
    apart: &mut BTreeMap<Vec<u8>, u32>,
    term: &[u8],
    hash: u32,
    chain_len: u32,
    id: u32,
) -> Result<u32, AllocError>
    requires { hash ≡ hash_of term.now }
    ensures placed { IfOk result (IsPlaced apart.new term.now id) }
    ensures others { KeepsOtherIds term.now apart.old apart.new }
{
    if chain_len < LONG_CHAIN_LEN {
        return Ok(hash);
    }
    set_apart(alloc, apart, term, id)?;
    Ok(id)
}

// Keeps the id of a new term apart.
#[cold]
fn set_apart(
    alloc: Global,
    apart: &mut BTreeMap<Vec<u8>, u32>,
    term: &[u8],
    id: u32,
) -> Result<(), AllocError>
    ensures set { OnOk result (id_apart apart.new term.now ≡ Some id) }
    ensures others { KeepsOtherIds term.now apart.old apart.new }
{
    let key = Vec::from_slice(alloc, term)?;
    apart.insert(key, id)?;
    Ok(())
}

// The terms with their ids, behind their first bytes.
fn numbered(alloc: Global, terms: &TermArena) -> Result<Vec<(u64, &[u8], u32)>, AllocError>
    requires { length terms.now < 2 ^ 32 }
    ensures { IfOk result (λ all. AreNumbered terms.now (length terms.now) all.items) }
{
    let num_terms = terms.len() as u32;
    let mut all = Vec::with_capacity(alloc, terms.len())?;
    for id in 0..num_terms {
        let term = terms.get(id);
        all.push((padded_head(term), term, id))?;
    }
    Ok(all)
}

// Adds where each term ends.
fn push_ends(bytes: &mut Vec<u8>, terms: &[(u64, &[u8], u32)]) -> Result<(), AllocError>
    requires { sum_by length (texts terms.now) < 2 ^ 32 }
    ensures { OnOk result (bytes.new.items
        ≡ bytes.old.items ++ flat_map (to_le_bytes w32) (ends_from 0 (texts terms.now))) }
{
    let mut end: u32 = 0;
    for term in terms {
        end += term.1.len() as u32;
        bytes.extend_from_slice(&end.to_le_bytes())?;
    }
    Ok(())
}

// Adds the bytes of each term.
fn push_texts(bytes: &mut Vec<u8>, terms: &[(u64, &[u8], u32)]) -> Result<(), AllocError>
    ensures { OnOk result (bytes.new.items ≡ bytes.old.items ++ concat (texts terms.now)) }
{
    for term in terms {
        bytes.extend_from_slice(term.1)?;
    }
    Ok(())
}
