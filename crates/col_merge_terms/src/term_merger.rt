//! Merges walks over the terms of segments.
ghost use Rattle.std.specs.Prelude.{◌≡◌, ◌<◌, ◌≤◌, ◌+◌, ◌++◌, ◌∷◌, [], true, length, map, IfOk, IsPermutation};
ghost use Rattle.std.specs.List.{AllByRecursion};
ghost use Rattle.std.specs.BinaryHeap.{heap_items, heap_len, heap_capacity, IsHeap};
ghost use Rattle.std.specs.Vec.{vec_len, vec_capacity};
ghost use Rattle.col_common.specs.Ascending.{is_never_falling};
ghost use Rattle.col_merge_terms.specs.Merging.{in_order, terms_left, terms_ahead, LeftAscends};
ghost use Rattle.col_merge_terms.specs.Moves.{stream_cmp, AreReady, AreTaken, AreLater, IsLeast, IsFirstAt, first_key};

use crate::{MatchingSegments, TermsWithSegmentOrd};
use std::alloc::{AllocError, Global};
use std::collections::BinaryHeap;
use std::marker::Model;

/// A merge of walks over the terms of segments: each term once, ascending, with all segments that
/// have it. Contracts see the terms that are still to come, and those where the merge stands.
#[derive(Drop)]
pub struct TermMerger<'a> {
    heap: BinaryHeap<TermsWithSegmentOrd<'a>>,
    term_streams_with_segment: Vec<TermsWithSegmentOrd<'a>>,
    is_on_term: bool,
}

impl<'a> Model for TermMerger<'a> {
    ghost use Rattle.std.specs.BinaryHeap.{heap_items, heap_capacity};
    ghost use Rattle.std.specs.Vec.{vec_capacity};
    ghost use Rattle.col_merge_terms.specs.Merging.{Merging};
    ghost use Rattle.col_merge_terms.specs.Moves.{IsMerger, merging_by};

    ghost Value = { Merging };

    ghost view = { λ m.
        merging_by m.is_on_term m.term_streams_with_segment.items (heap_items m.heap) };

    ghost invariant = { λ m.
        IsMerger m.is_on_term m.term_streams_with_segment.items (heap_items m.heap)
        (vec_capacity m.term_streams_with_segment) (heap_capacity m.heap) };
}

impl<'a> TermMerger<'a> {
    ghost use Rattle.std.specs.Prelude.{◌^◌};
    ghost use Rattle.col_merge_terms.specs.Merging.{merging_of, merged_step, is_on_key, key_of, places_of};

    /// A merge of these walks, from the term behind the one where each stands.
    pub fn new(
        alloc: Global,
        term_streams_with_segment: Vec<TermsWithSegmentOrd<'a>>,
    ) -> Result<TermMerger<'a>, AllocError>
        requires { length term_streams_with_segment.items < 2 ^ 32 }
        ensures { IfOk result
            (λ merger. merger ≡ merging_of (terms_left term_streams_with_segment.entry.items)) }
    {
        terms_ascend(&term_streams_with_segment);
        let heap = BinaryHeap::with_capacity(alloc, term_streams_with_segment.len())?;
        Ok(TermMerger {
            heap,
            term_streams_with_segment,
            is_on_term: false,
        })
    }

    /// Goes on to the next term, if there is one.
    pub fn advance(&mut self) -> bool
        ensures term { self.new ≡ merged_step self.old.left }
        ensures found { result ≡ is_on_key self.new }
    {
        go_on(&mut self.term_streams_with_segment, &mut self.heap);
        self.is_on_term = take_least(&mut self.heap, &mut self.term_streams_with_segment);
        self.is_on_term
    }

    /// The term where the merge stands.
    pub fn key(&self) -> &[u8]
        requires { is_on_key self.now ≡ true }
        ensures { result.now ≡ key_of self.now.current }
    {
        self.term_streams_with_segment[0].terms.key()
    }

    /// The segments that have this term, ascending, each with the term's ordinal there.
    pub fn matching_segments(&self) -> MatchingSegments<'_>
        requires { is_on_key self.now ≡ true }
        ensures all { IsPermutation (places_of self.now.current) result }
        ensures ascend { is_never_falling (map (λ p. p.0) result) ≡ true }
    {
        MatchingSegments::new(&self.term_streams_with_segment)
    }
}

// That the terms that each walk has still to give ascend.
fn terms_ascend(streams: &[TermsWithSegmentOrd<'_>])
    ensures { AllByRecursion LeftAscends streams.now }
{
    for stream in streams {
        stream.terms.terms_ascend();
    }
}

// Puts walks into the heap, each a step further; those that are at their end are let go.
fn go_on<'a>(
    streams: &mut Vec<TermsWithSegmentOrd<'a>>,
    heap: &mut BinaryHeap<TermsWithSegmentOrd<'a>>,
)
    requires ready { AreReady streams.old.items (heap_items heap.old) }
    requires room { vec_len streams.old + heap_len heap.old ≤ heap_capacity heap.old }
    ensures none { streams.new.items ≡ [] }
    ensures room { vec_capacity streams.new ≡ vec_capacity streams.old }
    ensures ready { AreReady [] (heap_items heap.new) }
    ensures few { heap_len heap.new ≤ vec_len streams.old + heap_len heap.old }
    ensures capacity { heap_capacity heap.old ≤ heap_capacity heap.new }
    ensures same { in_order (terms_ahead (heap_items heap.new))
        ≡ in_order (terms_left streams.old.items ++ terms_ahead (heap_items heap.old)) }
{
    while let Some(stream) = streams.pop() {
        put_behind(stream, heap);
    }
}

// Puts a walk into the heap, a step further, unless it is at its end.
fn put_behind<'a>(stream: TermsWithSegmentOrd<'a>, heap: &mut BinaryHeap<TermsWithSegmentOrd<'a>>)
    requires ascends { LeftAscends stream }
    requires ready { AreReady [] (heap_items heap.old) }
    requires room { heap_len heap.old < heap_capacity heap.old }
    ensures ready { AreReady [] (heap_items heap.new) }
    ensures few { heap_len heap.new ≤ 1 + heap_len heap.old }
    ensures capacity { heap_capacity heap.old ≤ heap_capacity heap.new }
    ensures same { in_order (terms_ahead (heap_items heap.new))
        ≡ in_order (terms_left (stream.entry ∷ []) ++ terms_ahead (heap_items heap.old)) }
{
    let mut stream = stream;
    if stream.terms.advance() {
        put(stream, heap);
    }
}

// Puts a walk into the heap, which has room for it.
fn put<'a>(stream: TermsWithSegmentOrd<'a>, heap: &mut BinaryHeap<TermsWithSegmentOrd<'a>>)
    requires { heap_len heap.old < heap_capacity heap.old }
    ensures moved { IsPermutation (stream.entry ∷ heap_items heap.old) (heap_items heap.new) }
    ensures heap { IsHeap stream_cmp (heap_items heap.old) →
        IsHeap stream_cmp (heap_items heap.new) }
    ensures len { heap_len heap.new ≡ heap_len heap.old + 1 }
    ensures capacity { heap_capacity heap.old ≤ heap_capacity heap.new }
{
    if let Err(_refused) = heap.push(stream) {
        unreachable!();
    }
}

// Takes the walks with the least key out of the heap.
fn take_least<'a>(
    heap: &mut BinaryHeap<TermsWithSegmentOrd<'a>>,
    streams: &mut Vec<TermsWithSegmentOrd<'a>>,
) -> bool
    requires none { streams.old.items ≡ [] }
    requires heap { IsHeap stream_cmp (heap_items heap.old) }
    requires room { heap_len heap.old ≤ vec_capacity streams.old }
    ensures least { IsLeast result (heap_items heap.old) streams.new.items (heap_items heap.new) }
    ensures room { vec_capacity streams.new ≡ vec_capacity streams.old }
    ensures capacity { heap_capacity heap.new ≡ heap_capacity heap.old }
{
    let Some(first) = heap.pop() else {
        return false;
    };
    streams.push_reserved(first);
    take_equal(heap, streams);
    true
}

// Takes the walks out of the heap that are where the first of those that were taken is.
fn take_equal<'a>(
    heap: &mut BinaryHeap<TermsWithSegmentOrd<'a>>,
    streams: &mut Vec<TermsWithSegmentOrd<'a>>,
)
    requires taken { AreTaken (streams.old.items ++ heap_items heap.old)
        streams.old.items (heap_items heap.old) }
    requires room { heap_len heap.old + vec_len streams.old ≤ vec_capacity streams.old }
    ensures taken { AreTaken (streams.old.items ++ heap_items heap.old)
        streams.new.items (heap_items heap.new) }
    ensures later { AreLater (first_key streams.new.items) (heap_items heap.new) }
    ensures room { vec_capacity streams.new ≡ vec_capacity streams.old }
    ensures capacity { heap_capacity heap.new ≡ heap_capacity heap.old }
{
    while is_first_at(heap, streams) {
        take(heap, streams);
    }
}

// Whether the least key in the heap is that of the walks that were taken.
fn is_first_at<'a>(
    heap: &BinaryHeap<TermsWithSegmentOrd<'a>>,
    streams: &Vec<TermsWithSegmentOrd<'a>>,
) -> bool
    requires { AreTaken (streams.now.items ++ heap_items heap.now)
        streams.now.items (heap_items heap.now) }
    ensures first { IsFirstAt result (first_key streams.now.items) (heap_items heap.now) }
{
    match heap.peek() {
        Some(stream) => stream.terms.key() == streams[0].terms.key(),
        None => false,
    }
}

// Takes a walk out of the heap that is where those that were taken are.
fn take<'a>(
    heap: &mut BinaryHeap<TermsWithSegmentOrd<'a>>,
    streams: &mut Vec<TermsWithSegmentOrd<'a>>,
)
    requires taken { AreTaken (streams.old.items ++ heap_items heap.old)
        streams.old.items (heap_items heap.old) }
    requires first { IsFirstAt true (first_key streams.old.items) (heap_items heap.old) }
    requires room { vec_len streams.old < vec_capacity streams.old }
    ensures taken { AreTaken (streams.old.items ++ heap_items heap.old)
        streams.new.items (heap_items heap.new) }
    ensures len { heap_len heap.new + vec_len streams.new
        ≡ heap_len heap.old + vec_len streams.old }
    ensures less { heap_len heap.new < heap_len heap.old }
    ensures room { vec_capacity streams.new ≡ vec_capacity streams.old }
    ensures capacity { heap_capacity heap.new ≡ heap_capacity heap.old }
{
    if let Some(stream) = heap.pop() {
        streams.push_reserved(stream);
    }
}
