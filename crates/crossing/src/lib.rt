// Which uses cross a function boundary, by a scope sheet, and their words with the crossing so (scope.rs).
#![tactic(auto)]

ghost use Rattle.std.specs.Prelude.{◌≡◌, cond, ◌++◌, ℕ, ◌≤◌, ◌<◌, length, get_or, drop, eqb};
ghost use Rattle.search.specs.Lent.{held, left};
ghost use Rattle.flow.specs.Sheet.{local_of};
ghost use Rattle.flow.specs.Scopes.{FUNCTION, crosses, with_crossing, crossed_from, Lower};
ghost use Rattle.flow.specs.Admitted.{AdmittedScopes};
ghost use Rattle.crossing.specs.Tables.{parent_in, is_over, NoteOf, Noted, names_before};

use scope_parts::Scopes;
use words::limit::SCOPES;
use words::{CROSSING, USE_KIND, scope_kind};

// What is noted of a scope.
#[derive(Clone, Copy, Default)]
struct Note {
    // The nearest Function that is it or over it,
    function: Option<u16>,
    // a scope that is it or over it,
    jump: u16,
    // and how many scopes are passed on the way there.
    passed: u16,
}

// Scopes by kind and by parent plus 1, or 0 for none: a parent has a lower number.
#[derive(Clone, Copy)]
struct ScopeChains<'a> {
    kinds: &'a [u64],
    parents: &'a [u64],
    ghost paired: { length kinds.now ≡ length parents.now },
    ghost few: { length kinds.now ≤ 512 },
    ghost lower: { Lower parents.now },
}

impl ScopeChains<'_> {
    fn parent_of(&self, s: usize) -> Option<usize>
        requires { s < length self.now.parents.now }
        ensures { result ≡ parent_in self.now.parents.now s }
    {
        self.parents[s].checked_sub(1).map(|parent| parent as usize)
    }

    // The nearest Function that is a scope or over it, by the nearest over it.
    fn function_at(&self, s: usize, above: Option<u16>) -> Option<u16>
        requires { s < length self.now.kinds.now }
        ensures { result ≡ cond (eqb (get_or self.now.kinds.now s 0) FUNCTION) (Some s) above }
    {
        if self.kinds[s] == scope_kind::FUNCTION {
            Some(s as u16)
        } else {
            above
        }
    }

    // The note of scope s, by those of the scopes before it. A jump behind two that pass as many passes both, so that few jumps lead
    // to any scope over s.
    fn note_of(&self, notes: &[Note], s: usize) -> Note
        requires s_in_bounds { (s < length self.now.kinds.now) × (length self.now.kinds.now ≤ length notes.now) }
        requires noted { Noted self.now.kinds.now self.now.parents.now s notes.now }
        ensures { NoteOf self.now.kinds.now self.now.parents.now s result }
    {
        let Some(parent) = self.parent_of(s) else {
            return Note {
                function: self.function_at(s, None),
                jump: s as u16,
                passed: 0,
            };
        };
        let up = notes[parent];
        let further = notes[up.jump as usize];
        let function = self.function_at(s, up.function);
        if up.passed == further.passed {
            return Note {
                function,
                jump: further.jump,
                passed: 2 * up.passed + 1,
            };
        }
        Note {
            function,
            jump: parent as u16,
            passed: 1,
        }
    }

    // The notes of all scopes.
    fn note_all(&self, notes: &mut [Note])
        requires { length self.now.kinds.now ≤ length notes.old }
        ensures { Noted self.now.kinds.now self.now.parents.now (length self.now.kinds.now) notes.new }
    {
        // By index: a note is made of those before it.
        for s in 0..self.kinds.len() {
            notes[s] = self.note_of(notes, s);
        }
    }
}

// Scopes, each with its note, and the scope of each name.
#[derive(Clone, Copy)]
struct NotedScopes<'s, 'n> {
    chains: ScopeChains<'s>,
    notes: &'n [Note],
    names: &'s [u64],
    ghost as_long: { length chains.kinds.now ≤ length notes.now },
    ghost noted: { ∥ Noted chains.kinds.now chains.parents.now (length chains.kinds.now) notes.now ∥₁ },
    ghost inside: { (ℓ : ℕ) → ℓ < length names.now → get_or names.now ℓ 0 < length chains.kinds.now },
}

impl NotedScopes<'_, '_> {
    // Whether the name's scope is a scope, or over it: from scope to parent, or to where the note jumps if that is not past the name's.
    fn is_over(&self, name: usize, scope: usize) -> bool
        requires { scope < length self.now.chains.kinds.now }
        ensures { (k : ℕ) → scope < k → result ≡ is_over k self.now.chains.parents.now name scope }
    {
        if scope <= name {
            return scope == name;
        }
        let jump = self.notes[scope].jump as usize;
        if name <= jump && jump < scope {
            return self.is_over(name, jump);
        }
        let Some(parent) = self.chains.parent_of(scope) else {
            return false;
        };
        self.is_over(name, parent)
    }

    // Whether a Function is met before the name's scope, from a scope on along its parents: by its note, and where the name's scope may
    // stand before that Function, by whether it does.
    fn crosses_function_boundary(&self, name: usize, scope: usize) -> bool
        requires { (name < length self.now.chains.kinds.now) × (scope < length self.now.chains.kinds.now) }
        ensures { (k : ℕ) → scope < k → result ≡ crosses k self.now.chains.kinds.now self.now.chains.parents.now name scope }
    {
        match self.notes[scope].function {
            None => false,
            Some(function) if name < function as usize => true,
            Some(_) => !self.is_over(name, scope),
        }
    }

    // The word of a use in a scope, with its crossing as the chain from there has it.
    fn crossed_word(&self, word: u64, scope: usize) -> u64
        requires { (local_of word < length self.now.names.now) × (scope < length self.now.chains.kinds.now) }
        ensures { result ≡ with_crossing (crosses (length self.now.chains.kinds.now) self.now.chains.kinds.now self.now.chains.parents.now (get_or self.now.names.now (local_of word) 0) scope) word }
    {
        let local = word % USE_KIND;
        let kind = word / USE_KIND % CROSSING;
        let name = self.names[local as usize];
        let crosses = self.crosses_function_boundary(name as usize, scope);
        local + USE_KIND * (kind + CROSSING * u64::from(crosses))
    }
}

// The words of all uses so, in `words`.
pub fn replace_crossings(scopes: &[u64], use_words: &[u64], words: &mut [u64])
    requires admitted_scopes { AdmittedScopes (names_before use_words.now scopes.now) (length use_words.now) scopes.now }
    requires use_words_in_bounds { (length use_words.now ≤ length words.old) × ((u : ℕ) → u < length use_words.now → local_of (get_or use_words.now u 0) < names_before use_words.now scopes.now) }
    ensures { left words ≡ crossed_from (names_before use_words.now scopes.now) scopes.now 0 use_words.now ++ drop (length use_words.now) (held words) }
{
    let parts = Scopes::of(scopes);
    let chains = ScopeChains {
        kinds: parts.kinds,
        parents: parts.parents,
    };
    // No heap: fixed memory for the most scopes.
    let mut notes = [Note::default(); SCOPES];
    chains.note_all(&mut notes);
    let (names, uses) = parts
        .numbers
        .split_at(parts.numbers.len() - use_words.len());
    let noted = NotedScopes {
        chains,
        notes: &notes,
        names,
    };
    // Words by index: of a column that a zip of `iter_mut` writes a proof knows nothing behind the loop.
    for (u, (&word, &scope)) in use_words.iter().zip(uses).enumerate() {
        words[u] = noted.crossed_word(word, scope as usize);
    }
}
