//! The cells that wait, in a queue for each output.
ghost use Rattle.std.specs.Prelude.{◌≡◌, ◌↔◌, ◌-◌, ◌+◌, ◌<◌, ◌≤◌, ℕ, ◌==◌, ◌^◌, [], ◌∷◌, Some, IfOk, IfSome, IsTrue, option_map, length, replicate, drop, insert, slice_get, slice_set, not, if◌then◌else◌};
ghost use Rattle.std.specs.List.{position_or_len};
ghost use Rattle.cq_base.specs.Key.{is_before};
ghost use Rattle.cq_base.specs.Cells.{HasOtherKey, has_id, put};
ghost use Rattle.cq_list.specs.Fingers.{AreFingers, EndsAt, finger_at};
ghost use Rattle.cq_list.specs.Pool.{queue_of, behind_first, chain, linked, places, cells, cells_in_queues, AreLinked, HasOneMore, IsChained, IsHead, IsLinked, LeadsTo, LeadsTowards};
ghost use Rattle.slab.specs.Slab.{get, HasRoomFor};

use crate::fingers::{Ahead, Fingers};
use cq_base::{CellId, Key, NoMemory, Port, Queued};
use slab::Slab;
use std::alloc::Global;
use std::marker::Model;

// A cell in the pool, with the place of the next one of its queue. The last one's next place is not read.
#[derive(Clone, Copy)]
struct Node {
    queued: Queued,
    next: usize,
}

// The places of the first and of the last node of a queue, which are not read where it has none, and how many it has.
#[derive(Clone, Copy)]
struct Queue {
    first: usize,
    last: usize,
    len: usize,
}

/// A queue of cells for each output. Contracts see the queues, and how many more cells there is room for.
///
/// The cells stand in one pool, and each has the place of the next one of its queue. A place that was freed is used
/// before a new one. A cell that goes in at the end of its queue walks along no other, and one that overtakes others
/// begins its walk at a finger.
#[derive(Drop)]
pub struct Pool {
    nodes: Slab<Node>,
    queues: Vec<Queue>,
    fingers: Vec<Fingers>,
    room: u64,
}

impl Model for Pool {
    ghost use Rattle.std.specs.Prelude.{◌-◌};
    ghost use Rattle.slab.specs.Slab.{get, slab_len};
    ghost use Rattle.cq_list.specs.Pool.{PoolView, IsPool, cells_in_queues};

    ghost Value = { PoolView };

    ghost view = { λ p.
        record { queues = cells_in_queues (get p.nodes) p.queues.items; spare = p.room - slab_len p.nodes } };

    ghost invariant = { λ p. IsPool p.nodes p.queues.items p.fingers.items p.room };
}

// Whether the one key is no more urgent.
fn is_no_sooner(key: Key, other: Key) -> bool
    ensures { result ≡ not (is_before key other) }
{
    !key.precedes(other)
}

// All nodes of a queue.
fn all_of(queue: Queue) -> Ahead
    ensures count { result.count ≡ queue.len }
    ensures last { result.last ≡ queue.last }
{
    Ahead {
        count: queue.len,
        last: queue.last,
    }
}

// The last of some nodes of a queue.
fn last_of_some(nodes: &Slab<Node>, _queue: Queue, some: Ahead) -> Node
    requires chained { IsChained (get nodes.now) _queue }
    requires some { 0 < some.count }
    requires last { EndsAt (places (linked (get nodes.now) _queue)) some.count some.last }
    ensures there { get nodes.now some.last ≡ Some result }
    ensures cell { slice_get (cells (linked (get nodes.now) _queue)) (some.count - 1) ≡ Some result.queued }
    ensures rest { drop some.count (linked (get nodes.now) _queue)
        ≡ chain (get nodes.now) (_queue.len - some.count) result.next }
{
    nodes[some.last]
}

// Whether some nodes of a queue are all more urgent, as the last of them shows.
fn are_more_urgent(nodes: &Slab<Node>, queue: Queue, some: Ahead, key: Key) -> bool
    requires chained { IsChained (get nodes.now) queue }
    requires some { 0 < some.count }
    requires last { EndsAt (places (linked (get nodes.now) queue)) some.count some.last }
    ensures { IsTrue result ↔
        some.count ≤ position_or_len (λ x. not (is_before x.key key)) (cells (linked (get nodes.now) queue)) }
{
    last_of_some(nodes, queue, some).queued.key.precedes(key)
}

// Whether the two keys are one.
#[tactic(auto, using(crate::proofs::Put::neither_sooner, crate::proofs::Put::same_is_no_sooner))]
fn is_same(key: Key, other: Key) -> bool
    ensures { IsTrue result ↔ key ≡ other }
{
    is_no_sooner(key, other) && is_no_sooner(other, key)
}

// A finger, where it has more nodes ahead than the one that was found and the last of them is more urgent.
fn further(nodes: &Slab<Node>, queue: Queue, found: Ahead, finger: Ahead, key: Key) -> Ahead
    requires chained { IsChained (get nodes.now) queue }
    requires found { LeadsTowards (λ x. not (is_before x.key key)) (linked (get nodes.now) queue) found }
    requires finger { EndsAt (places (linked (get nodes.now) queue)) finger.count finger.last }
    ensures towards { LeadsTowards (λ x. not (is_before x.key key)) (linked (get nodes.now) queue) result }
    ensures on { found.count ≤ result.count }
    ensures far { finger.count ≤ position_or_len (λ x. not (is_before x.key key)) (cells (linked (get nodes.now) queue))
        → finger.count ≤ result.count }
{
    if finger.count > found.count && are_more_urgent(nodes, queue, finger, key) {
        finger
    } else {
        found
    }
}

// The finger with the most nodes ahead of which the last is more urgent, or none ahead.
fn nearest(nodes: &Slab<Node>, queue: Queue, fingers: &[Ahead], key: Key) -> Ahead
    requires chained { IsChained (get nodes.now) queue }
    requires fingers { AreFingers (places (linked (get nodes.now) queue)) fingers.now }
    ensures towards { LeadsTowards (λ x. not (is_before x.key key)) (linked (get nodes.now) queue) result }
    ensures far { (k : ℕ) → k < length fingers.now → (finger_at fingers.now k).count ≤
        position_or_len (λ x. not (is_before x.key key)) (cells (linked (get nodes.now) queue)) →
        (finger_at fingers.now k).count ≤ result.count }
{
    let mut found = Ahead {
        count: 0,
        last: queue.last,
    };
    'fingers: for at in 0..fingers.len() {
        found = further(nodes, queue, found, fingers[at], key);
    }
    found
}

// The place of the node behind some of a queue, which is not read where there is none.
fn next_of(nodes: &Slab<Node>, queue: Queue, ahead: Ahead) -> usize
    requires chained { IsChained (get nodes.now) queue }
    requires last { EndsAt (places (linked (get nodes.now) queue)) ahead.count ahead.last }
    ensures { drop ahead.count (linked (get nodes.now) queue) ≡
        chain (get nodes.now) (queue.len - ahead.count) result }
{
    if ahead.count == 0 {
        return queue.first;
    }
    last_of_some(nodes, queue, ahead).next
}

// How many cells of a queue are more urgent, cell by cell behind some that are.
fn walk(nodes: &Slab<Node>, queue: Queue, from: Ahead, key: Key) -> Ahead
    requires chained { IsChained (get nodes.now) queue }
    requires from { LeadsTowards (λ x. not (is_before x.key key)) (linked (get nodes.now) queue) from }
    ensures { LeadsTo (λ x. not (is_before x.key key)) (linked (get nodes.now) queue) result }
{
    let mut last = from.last;
    let mut place = next_of(nodes, queue, from);
    'nodes: for count in from.count..queue.len {
        let node = nodes[place];
        if is_no_sooner(node.queued.key, key) {
            return Ahead { count, last };
        }
        last = place;
        place = node.next;
    }
    Ahead {
        count: queue.len,
        last,
    }
}

// Whether a cell with this key goes in behind all others of a queue.
#[tactic(auto, using(crate::proofs::Put::behind_all_steps))]
fn is_behind_all(nodes: &Slab<Node>, queue: Queue, key: Key) -> bool
    requires { IsChained (get nodes.now) queue }
    ensures { IsTrue result ↔ queue.len ≡
        position_or_len (λ x. not (is_before x.key key)) (cells (linked (get nodes.now) queue)) }
{
    if queue.len == 0 {
        return true;
    }
    are_more_urgent(nodes, queue, all_of(queue), key)
}

// How many cells of a queue are more urgent, from the nearest finger on, or with no walk where all are.
fn ahead_of(nodes: &Slab<Node>, queue: Queue, fingers: &[Ahead], key: Key) -> Ahead
    requires chained { IsChained (get nodes.now) queue }
    requires fingers { AreFingers (places (linked (get nodes.now) queue)) fingers.now }
    ensures { LeadsTo (λ x. not (is_before x.key key)) (linked (get nodes.now) queue) result }
{
    if is_behind_all(nodes, queue, key) {
        return all_of(queue);
    }
    let from = nearest(nodes, queue, fingers, key);
    walk(nodes, queue, from, key)
}

// How many cells of a queue are more urgent. A last cell that has the key tells it at once too.
fn count_ahead(nodes: &Slab<Node>, queue: Queue, fingers: &[Ahead], key: Key) -> usize
    requires chained { IsChained (get nodes.now) queue }
    requires fingers { AreFingers (places (linked (get nodes.now) queue)) fingers.now }
    ensures { result ≡ position_or_len (λ x. not (is_before x.key key)) (cells (linked (get nodes.now) queue)) }
{
    if queue.len > 0 && is_same(last_of_some(nodes, queue, all_of(queue)).queued.key, key) {
        return queue.len - 1;
    }
    ahead_of(nodes, queue, fingers, key).count
}

// How many cells of a queue stand ahead of the first one with an id, which are all where none has it.
#[tactic(auto, using(crate::proofs::Walk::search_steps))]
fn count_to(nodes: &Slab<Node>, queue: Queue, id: CellId) -> usize
    requires { IsChained (get nodes.now) queue }
    ensures { result ≡ position_or_len (has_id id) (cells (linked (get nodes.now) queue)) }
{
    let mut place = queue.first;
    'nodes: for count in 0..queue.len {
        let node = nodes[place];
        if node.queued.cell.id == id {
            return count;
        }
        place = node.next;
    }
    queue.len
}

// The cell of a queue that has so many ahead.
#[tactic(auto, using(crate::proofs::Walk::walk_steps))]
fn cell_at(nodes: &Slab<Node>, queue: Queue, ahead: usize) -> Queued
    requires chained { IsChained (get nodes.now) queue }
    requires inside { ahead < queue.len }
    ensures { slice_get (cells (linked (get nodes.now) queue)) ahead ≡ Some result }
{
    let mut place = queue.first;
    'nodes: for _ in 0..ahead {
        place = nodes[place].next;
    }
    nodes[place].queued
}

// A node ahead of a queue's, and its place.
fn put_first(nodes: &mut Slab<Node>, queue: Queue, queued: Queued) -> usize
    requires room { HasRoomFor nodes.old 1 }
    requires linked { IsLinked (get nodes.old) queued.cell.output queue }
    ensures chained { chain (get nodes.new) (queue.len + 1) result ≡ (result, queued) ∷ linked (get nodes.old) queue }
    ensures more { HasOneMore queued.cell.output nodes.old nodes.new }
{
    nodes.insert_reserved(Node {
        queued,
        next: queue.first,
    })
}

// A node behind one of a queue's, and its place.
fn put_behind(nodes: &mut Slab<Node>, queue: Queue, queued: Queued, ahead: Ahead) -> usize
    requires room { HasRoomFor nodes.old 1 }
    requires linked { IsLinked (get nodes.old) queued.cell.output queue }
    requires some { 0 < ahead.count }
    requires last { EndsAt (places (linked (get nodes.old) queue)) ahead.count ahead.last }
    ensures chained { chain (get nodes.new) (queue.len + 1) queue.first ≡
        insert (linked (get nodes.old) queue) ahead.count (result, queued) }
    ensures more { HasOneMore queued.cell.output nodes.old nodes.new }
{
    let next = last_of_some(nodes, queue, ahead).next;
    let place = nodes.insert_reserved(Node { queued, next });
    nodes[ahead.last].next = place;
    place
}

// A node behind so many of a queue's: the place of the first one then, and its own.
fn put_node(nodes: &mut Slab<Node>, queue: Queue, queued: Queued, ahead: Ahead) -> (usize, usize)
    requires room { HasRoomFor nodes.old 1 }
    requires linked { IsLinked (get nodes.old) queued.cell.output queue }
    requires last { EndsAt (places (linked (get nodes.old) queue)) ahead.count ahead.last }
    ensures chained { chain (get nodes.new) (queue.len + 1) result.0 ≡
        insert (linked (get nodes.old) queue) ahead.count (result.1, queued) }
    ensures more { HasOneMore queued.cell.output nodes.old nodes.new }
{
    if ahead.count == 0 {
        let place = put_first(nodes, queue, queued);
        return (place, place);
    }
    (queue.first, put_behind(nodes, queue, queued, ahead))
}

// The place of the last node, where a node was put at this place.
fn last_of(queue: Queue, ahead: Ahead, place: usize) -> usize
    ensures { result ≡ (if ahead.count == queue.len then place else queue.last) }
{
    if ahead.count == queue.len {
        place
    } else {
        queue.last
    }
}

// The queue with a cell more, behind so many of its cells.
fn put_into(nodes: &mut Slab<Node>, queue: Queue, queued: Queued, ahead: Ahead) -> Queue
    requires room { HasRoomFor nodes.old 1 }
    requires linked { IsLinked (get nodes.old) queued.cell.output queue }
    requires other_key { HasOtherKey queued (cells (linked (get nodes.old) queue)) }
    requires ahead { LeadsTo (λ x. is_before queued.key x.key) (linked (get nodes.old) queue) ahead }
    requires fits { queue.len + 1 < 2 ^ 64 }
    ensures linked { IsLinked (get nodes.new) queued.cell.output result }
    ensures places { (place : ℕ) × (places (linked (get nodes.new) result) ≡
        insert (places (linked (get nodes.old) queue)) ahead.count place) }
    ensures cells { cells (linked (get nodes.new) result) ≡ put queued (cells (linked (get nodes.old) queue)) }
    ensures more { HasOneMore queued.cell.output nodes.old nodes.new }
    ensures longer { result.len ≡ queue.len + 1 }
{
    let (first, place) = put_node(nodes, queue, queued, ahead);
    Queue {
        first,
        last: last_of(queue, ahead, place),
        len: queue.len + 1,
    }
}

// The queue without its first node, which leads on to this place.
fn behind_first(queue: Queue, next: usize) -> Queue
    requires { 0 < queue.len }
    ensures { result ≡ behind_first queue next }
{
    Queue {
        first: next,
        last: queue.last,
        len: queue.len - 1,
    }
}

// No finger in each of so many queues. The error is want of memory.
#[tactic(auto, using(std::proofs::lemmas::List::replicate_more))]
fn no_fingers(alloc: Global, queues: u16) -> Result<Vec<Fingers>, NoMemory>
    ensures { IfOk result (λ fingers. fingers.items ≡ replicate queues []) }
{
    let mut fingers = Vec::with_capacity(alloc, queues as usize)?;
    'queues: for _ in 0..queues {
        fingers.push(Fingers::none())?;
    }
    Ok(fingers)
}

// The queue of an output and its first node, if it has one.
fn head_of(nodes: &Slab<Node>, queues: &[Queue], output: Port) -> Option<(Queue, Node)>
    requires { AreLinked (get nodes.now) queues.now }
    ensures head { IfSome result (λ head. IsHead (get nodes.now) queues.now output head.0 head.1) }
    ensures first { option_map (λ head. head.1.queued) result
        ≡ slice_get (queue_of (cells_in_queues (get nodes.now) queues.now) output) 0 }
{
    let queue = *queues.get(output as usize)?;
    if queue.len == 0 {
        return None;
    }
    Some((queue, nodes[queue.first]))
}

impl Pool {
    /// No cell waits for any of so many outputs, and there is room for so many cells. The error is want of memory.
    #[tactic(auto, using(crate::proofs::Queues::no_cells, crate::proofs::Queues::empty_pool))]
    pub fn new(alloc: Global, outputs: u16, room: u64) -> Result<Pool, NoMemory>
        ensures queues { IfOk result (λ pool. pool.queues ≡ replicate outputs []) }
        ensures spare { IfOk result (λ pool. pool.spare ≡ room) }
    {
        let nobody = Queue {
            first: 0,
            last: 0,
            len: 0,
        };
        Ok(Pool {
            nodes: Slab::with_capacity(alloc, room as usize)?,
            queues: vec![in alloc; nobody; outputs as usize]?,
            fingers: no_fingers(alloc, outputs)?,
            room,
        })
    }

    /// Puts a cell into the queue of its output, at its place by key, and answers how many cells stand ahead of it. It
    /// takes room for one cell and no memory.
    pub fn put(&mut self, queued: Queued) -> usize
        requires spare { 0 < self.old.spare }
        requires in_range { queued.cell.output < length self.old.queues }
        requires other_key { HasOtherKey queued (queue_of self.old.queues queued.cell.output) }
        ensures place { result ≡
            position_or_len (λ x. is_before queued.key x.key) (queue_of self.old.queues queued.cell.output) }
        ensures queues { self.new.queues ≡ slice_set self.old.queues queued.cell.output
            (put queued (queue_of self.old.queues queued.cell.output)) }
        ensures spare { self.new.spare + 1 ≡ self.old.spare }
    {
        let output = queued.cell.output as usize;
        let queue = self.queues[output];
        let ahead = ahead_of(
            &self.nodes,
            queue,
            self.fingers[output].as_slice(),
            queued.key,
        );
        self.queues[output] = put_into(&mut self.nodes, queue, queued, ahead);
        self.fingers[output].put(queue.len, queued.cell.class, ahead);
        ahead.count
    }

    /// The first cell of a queue, if it has one.
    pub fn first(&self, output: Port) -> Option<Queued>
        ensures { result ≡ slice_get (queue_of self.now.queues output) 0 }
    {
        let (_, head) = head_of(&self.nodes, self.queues.as_slice(), output)?;
        Some(head.queued)
    }

    /// How many cells are in a queue.
    #[tactic(auto, using(crate::proofs::Queues::read_steps))]
    pub fn len_of(&self, output: Port) -> usize
        requires { output < length self.now.queues }
        ensures { result ≡ length (queue_of self.now.queues output) }
    {
        self.queues[output as usize].len
    }

    /// How many cells of a queue are more urgent than a key.
    #[tactic(auto, using(crate::proofs::Queues::read_steps))]
    pub fn ahead_of_key(&self, output: Port, key: Key) -> usize
        requires { output < length self.now.queues }
        ensures { result ≡ position_or_len (λ x. not (is_before x.key key)) (queue_of self.now.queues output) }
    {
        let fingers = self.fingers[output as usize].as_slice();
        count_ahead(&self.nodes, self.queues[output as usize], fingers, key)
    }

    /// How many cells of a queue stand ahead of the first one with an id, which are all where none has it.
    #[tactic(auto, using(crate::proofs::Queues::read_steps))]
    pub fn ahead_of_id(&self, output: Port, id: CellId) -> usize
        requires { output < length self.now.queues }
        ensures { result ≡ position_or_len (has_id id) (queue_of self.now.queues output) }
    {
        count_to(&self.nodes, self.queues[output as usize], id)
    }

    /// The cell of a queue that has so many ahead.
    pub fn at(&self, output: Port, ahead: usize) -> Queued
        requires { ahead < length (queue_of self.now.queues output) }
        ensures { slice_get (queue_of self.now.queues output) ahead ≡ Some result }
    {
        cell_at(&self.nodes, self.queues[output as usize], ahead)
    }

    /// Takes the first cell of a queue out, which gives its room back.
    pub fn take(&mut self, output: Port) -> Queued
        requires { 0 < length (queue_of self.old.queues output) }
        ensures first { slice_get (queue_of self.old.queues output) 0 ≡ Some result }
        ensures queues { self.new.queues ≡ slice_set self.old.queues output (drop 1 (queue_of self.old.queues output)) }
        ensures spare { self.new.spare ≡ self.old.spare + 1 }
    {
        let queue = self.queues[output as usize];
        let node = self.nodes.remove(queue.first);
        self.queues[output as usize] = behind_first(queue, node.next);
        self.fingers[output as usize].take();
        node.queued
    }

    /// The heads of the queues, of which none is told yet. The error is want of memory.
    pub fn heads<'a>(&'a self, alloc: Global) -> Result<Heads<'a>, NoMemory>
        ensures { IfOk result (λ heads. heads ≡ self.now.queues) }
    {
        Ok(Heads {
            nodes: &self.nodes,
            queues: Vec::from_slice(alloc, self.queues.as_slice())?,
        })
    }
}

/// What is left to be told of the queues of a pool, each from its head on. Contracts see what is left of each queue.
#[derive(Drop)]
pub struct Heads<'a> {
    nodes: &'a Slab<Node>,
    queues: Vec<Queue>,
}

impl<'a> Model for Heads<'a> {
    ghost use Rattle.std.specs.Prelude.{List};
    ghost use Rattle.slab.specs.Slab.{get};
    ghost use Rattle.cq_base.specs.declared.cell.Queued.{Queued};
    ghost use Rattle.cq_list.specs.Pool.{AreLinked, cells_in_queues};

    ghost Value = { List (List Queued) };

    ghost view = { λ h. cells_in_queues (get h.nodes.now) h.queues.items };

    ghost invariant = { λ h. AreLinked (get h.nodes.now) h.queues.items };
}

impl<'a> Heads<'a> {
    /// The head of a queue, if it has one, whose next cell is then its head.
    #[tactic(auto, using(crate::proofs::Queues::head_steps))]
    pub fn next(&mut self, output: Port) -> Option<Queued>
        ensures head { result ≡ slice_get (queue_of self.old output) 0 }
        ensures queues { self.new ≡ slice_set self.old output (drop 1 (queue_of self.old output)) }
    {
        let (queue, head) = head_of(self.nodes, self.queues.as_slice(), output)?;
        self.queues[output as usize] = behind_first(queue, head.next);
        Some(head.queued)
    }
}
