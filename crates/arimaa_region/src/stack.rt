//! A stack of segments of distinct values.
ghost use Rattle.std.specs.Prelude.{◌≡◌, ◌+◌, ◌<◌, ◌≤◌, [], ◌∷◌, length, take, drop, Some, IfOk, slice_get, slice_index};
ghost use Rattle.arimaa_region.specs.Layout.{IsDistinct};
ghost use Rattle.arimaa_region.specs.Placing.{IsPlaced};
ghost use Rattle.arimaa_region.specs.Segments.{below_top, live_of, lowest, segment_of};

use crate::bucket::{bucket, buckets_for};
use crate::index::Index;
use crate::key::Key;
use crate::placement::Placed;
use crate::probe::find;
use std::alloc::{AllocError, Global};
use std::marker::Model;

/// A stack of segments of values, in memory that is taken once.
///
/// Values are placed in the top segment, which has each of them once. A place is a value's number
/// among all that are live, from 0. At most 64 segments are open at a time.
#[derive(Drop)]
pub(crate) struct Stack<T: Key> {
    // What each taken place has. Its memory is for all places.
    places: Vec<T>,
    index: Index,
    // The first place of each open segment, the lowest segment first.
    starts: [u32; 64],
    open_segments: u8,
    room: u32,
}

impl<T: Key> Model for Stack<T> {
    ghost use Rattle.std.specs.Prelude.{◌≤◌, length, vec_capacity};
    ghost use Rattle.arimaa_region.specs.Layout.{segments_between, IsSound};
    ghost use Rattle.arimaa_region.specs.Segments.{Stacked, stacked_code};

    ghost Value = { Stacked T };

    ghost coded = { stacked_code T.code };

    ghost view = { λ r. record {
      room = r.room;
      segments = segments_between r.places.items r.starts r.open_segments (length r.index.buckets);
    } };

    ghost invariant = { λ r.
        (IsSound T.hash_of r.room r.open_segments r.places.items r.index r.starts)
        × (r.room ≤ vec_capacity r.places) };
}

// The place after a segment: where the next one begins, or where the live places end.
fn end_of(starts: &[u32; 64], open_segments: u8, live: u32, number: u8) -> u32
    requires open { number < open_segments }
    requires most { open_segments ≤ 64 }
    ensures top { number + 1 ≡ open_segments → result ≡ live }
    ensures lower { number + 1 < open_segments → result ≡ slice_index starts.now (number + 1) }
{
    if number + 1 == open_segments {
        live
    } else {
        starts[number as usize + 1]
    }
}

impl<T: Key> Stack<T> {
    /// A stack of so many places, at least one, with no segment open.
    ///
    /// This call alone takes memory: the size of a value and 9 bytes a place.
    pub(crate) fn with_room(alloc: Global, room: u32) -> Result<Stack<T>, AllocError>
        requires { 1 ≤ room }
        ensures room { IfOk result (λ r. r.room ≡ room) }
        ensures empty { IfOk result (λ r. r.segments ≡ []) }
    {
        Ok(Stack {
            places: Vec::with_capacity(alloc, room as usize)?,
            index: Index::with_room(alloc, room)?,
            starts: [0; 64],
            open_segments: 0,
            room,
        })
    }

    /// Opens a new top segment, which is empty. The answer is the number of segments below it.
    pub(crate) fn open(&mut self) -> u8
        requires { length self.old.segments < 64 }
        ensures number { result ≡ length self.old.segments }
        ensures opened { self.new ≡ record self.old { segments = [] ∷ self.old.segments } }
    {
        let number = self.open_segments;
        self.starts[number as usize] = self.index.len();
        self.open_segments += 1;
        number
    }

    /// Puts a value at the end of the top segment, unless it is there or no place is free.
    #[inline(always)]
    pub(crate) fn place(&mut self, value: T) -> Placed
        requires { 0 < length self.old.segments }
        ensures { IsPlaced T.same self.old value result self.new }
    {
        let first = self.starts[self.open_segments as usize - 1];
        let bucket = bucket(value.hash_number(), buckets_for(self.room));
        if let Some(place) = find(self.places.as_slice(), &self.index, first, &value, bucket) {
            return Placed::There(place);
        }
        let place = self.index.len();
        if place == self.room {
            return Placed::Full;
        }
        self.places.push_reserved(value);
        self.index.push(bucket);
        Placed::New(place)
    }

    /// The value at a place.
    pub(crate) fn get(&self, place: u32) -> T
        requires { place < length (live_of self.now.segments) }
        ensures { slice_get (live_of self.now.segments) place ≡ Some result }
    {
        self.places[place as usize]
    }

    /// Where a segment lies, by the number of segments below it: its first place, and how many
    /// values it has.
    pub(crate) fn segment(&self, number: u8) -> (u32, u32)
        requires { number < length self.now.segments }
        ensures first { result.0 ≡ length (live_of (lowest number self.now.segments)) }
        ensures size { result.1 ≡ length (segment_of self.now.segments number) }
        ensures places { take result.1 (drop result.0 (live_of self.now.segments))
            ≡ segment_of self.now.segments number }
        ensures distinct { IsDistinct (segment_of self.now.segments number) }
    {
        let first = self.starts[number as usize];
        let end = end_of(&self.starts, self.open_segments, self.index.len(), number);
        (first, end - first)
    }

    /// How many values are live, in all segments together.
    pub(crate) fn live(&self) -> u32
        ensures count { result ≡ length (live_of self.now.segments) }
        ensures within { length (live_of self.now.segments) ≤ self.now.room }
    {
        self.index.len()
    }

    /// Closes the top segment and gives its places back.
    pub(crate) fn close(&mut self)
        requires { 0 < length self.old.segments }
        ensures { self.new ≡ record self.old { segments = below_top self.old.segments } }
    {
        self.open_segments -= 1;
        let first = self.starts[self.open_segments as usize];
        self.index.truncate(first);
        self.places.truncate(first as usize);
    }

    /// Closes all segments and gives their places back.
    pub(crate) fn clear(&mut self)
        ensures { self.new ≡ record self.old { segments = [] } }
    {
        self.open_segments = 0;
        self.index.truncate(0);
        self.places.clear();
    }
}
