// Searches in a graph: definitions and laws that every search of the repository cites, and the worklist that each search drives.
#![tactic(auto)]

mod cells;

ghost use Rattle.std.specs.Prelude.{◌≡◌, ◌<◌, ◌≤◌, length, get_or, set, eqb};
ghost use Rattle.search.specs.Worklist.{st, push, Room};
ghost use Rattle.search.specs.Stamps.{stamp_push};
ghost use Rattle.search.specs.Running.{state_by, SameColumns, Popped};

pub use cells::NodeCell;

// v marked and pushed, unless it is marked. The result is the stack's height. For columns of 64 bits by themselves, where every mark but 0
// counts; `Search` marks by one stamp.
pub fn push_if_new(marks: &mut [u64], stack: &mut [u64], n: usize, top: usize, v: usize) -> usize
    requires room { Room n (st marks.old stack.old top) }
    requires v_lt_n { v < n }
    ensures { st marks.new stack.new result ≡ push v (st marks.old stack.old top) }
{
    if marks[v] == 0 {
        marks[v] = 1;
        stack[top] = v as u64;
        top + 1
    } else {
        top
    }
}

// A search by a stamp: a node is marked where its cell holds the stamp, and the stack's first cells hold those that are still to be expanded.
// The stack's height stands beside its column: what lent columns end as is lost where the struct that holds them lies in another.
#[derive(Drop)]
pub struct Search<'a, T = u16> {
    pub marks: &'a mut [T],
    pub stack: &'a mut [T],
    pub top: usize,
    pub stamp: T,
}

impl<T: NodeCell> Search<'_, T> {
    // Another search in the same columns: its stamp is new, so that no node is marked, and the stack is empty.
    pub fn begin(&mut self, stamp: T)
        ensures same { SameColumns self.old self.new }
        ensures begun { (state_by T.numbers self.new ≡ st (T.numbers self.old.marks.now) (T.numbers self.old.stack.now) 0) × (self.new.stamp ≡ stamp) }
    {
        self.top = 0;
        self.stamp = stamp;
    }

    pub fn is_marked(&self, v: usize) -> bool
        requires { v < length self.now.marks.now }
        ensures { result ≡ eqb (get_or (T.numbers self.now.marks.now) v 0) (T.number self.now.stamp) }
    {
        self.marks[v].index() == self.stamp.index()
    }

    // v marked, and not pushed.
    pub fn mark(&mut self, v: usize)
        requires { v < length self.old.marks.now }
        ensures same { SameColumns self.old self.new × (self.new.stamp ≡ self.old.stamp) }
        ensures marked { state_by T.numbers self.new ≡ st (set (T.numbers self.old.marks.now) v (T.number self.old.stamp)) (T.numbers self.old.stack.now) self.old.top }
    {
        self.marks[v] = self.stamp;
    }

    // v marked and pushed, unless it is marked.
    #[tactic(auto, using(std::proofs::lemmas::Bool::Decides::nat_tests), unfolding(crate::specs::Stamps::stamp_push))]
    pub fn insert(&mut self, v: usize)
        requires v_in_bounds { (v < length self.old.marks.now) × (v < T.limit) }
        requires top_in_bounds { (get_or (T.numbers self.old.marks.now) v 0 ≡ T.number self.old.stamp → ⊥) → self.old.top < length self.old.stack.now }
        ensures same { SameColumns self.old self.new × (self.new.stamp ≡ self.old.stamp) }
        ensures inserted { state_by T.numbers self.new ≡ stamp_push (T.number self.old.stamp) v (state_by T.numbers self.old) }
    {
        if !self.is_marked(v) {
            self.marks[v] = self.stamp;
            self.stack[self.top] = T::of(v);
            self.top += 1;
        }
    }

    // The node on top of the stack, taken off it; none where the stack is empty.
    pub fn pop(&mut self) -> Option<usize>
        requires { self.old.top ≤ length self.old.stack.now }
        ensures same { SameColumns self.old self.new × (self.new.stamp ≡ self.old.stamp) }
        ensures popped { Popped result (state_by T.numbers self.old) (state_by T.numbers self.new) }
    {
        if self.top == 0 {
            return None;
        }
        self.top -= 1;
        Some(self.stack[self.top].index())
    }
}
