//! Laws that follow from the contracts of this crate. Each function does nothing: its contract is
//! the law, proved for all messages.
ghost use Rattle.std.specs.Prelude.{◌≡◌, ◌⊎◌, ℕ, ◌+◌, ◌<◌, ◌≤◌, min, map, All, List, length, Option, Some};
ghost use Rattle.std.specs.List.{sum_by};
ghost use Rattle.capnp_words.specs.declared.error.ErrorKind.{ErrorKind};
ghost use Rattle.capnp_arena_traits.specs.View.{View};
ghost use Rattle.capnp_format.specs.Forest.{IsForest};
ghost use Rattle.capnp_format.specs.Segments.{segment};
ghost use Rattle.capnp_format.specs.Tree.{Tree, count};
ghost use Rattle.capnp_format.specs.Path.{node, PathLeads};
ghost use Rattle.capnp_edits.specs.declared.edit.Edit.{Edit};
ghost use Rattle.capnp_edits.specs.declared.edit.Source.{Source};
ghost use Rattle.capnp_edits.specs.declared.edit.copying.Copying.{Copying};
ghost use Rattle.capnp_edits.specs.declared.edit.copying.Wanted.TheVariants.{Struct as AStruct};
ghost use Rattle.capnp_edits.specs.declared.edit.path.PathEnd.TheVariants.{Pointer as AtPointer};
ghost use Rattle.capnp_edits.specs.Edits.{InTurn};
ghost use Rattle.capnp_edits.specs.Fitting.{AreInFirst, AsksNoMore, IsNoneOfMemory, words_asked};
ghost use Rattle.capnp_edits.specs.Paths.{step_of};
ghost use Rattle.capnp_edits.specs.Sources.{ContentRead, Copies, HasNothingToCopy, IsNextUnreadable, IsUnreadable};
ghost use Rattle.capnp_edits.specs.Steps.{IsStep};
ghost use Rattle.capnp_edits.specs.Tasks.{task_of};

/// If the value of another message's root can be copied, a copy of it is never refused because of
/// what it reads.
pub fn copied_or_refused()
    ensures { (c : Copying) (u : Tree) (k : ErrorKind) → Copies c u
        → HasNothingToCopy c.source c.wanted k ⊎ IsUnreadable c k → ⊥ }
{}

/// If the root of another message leads to a struct, and the struct's pointers that are to be
/// copied lead to values within the nesting limit and the traversal limit, copying the struct's
/// content isn't refused because of what it reads.
pub fn filled_or_refused()
    ensures { (source : Source) (q : ℕ) (k : ErrorKind) (all : ContentRead source)
        → count all.children ≡ min q all.from.pointers
        → HasNothingToCopy source AStruct k
        ⊎ ((some : ContentRead source) × (count some.children < min q some.from.pointers)
        × IsNextUnreadable source some k) → ⊥ }
{}

/// If the path of an edit leads to a pointer, the edit is applied there: that pointer is the place
/// that the contract of `apply` is about.
pub fn step_is_there()
    ensures { (old new : View) (edit : Edit) (r : Option ErrorKind) (t x : Tree) (u q : ℕ)
        (s : IsStep edit r old new) → IsForest old.words t
        → PathLeads old.words (node 0 0 t) (map step_of edit.path.now) (node u q x)
        → s.path_end ≡ Some (AtPointer (record { segment = u; word = q })) }
{}

/// Take edits that only make objects, or write pointers, fields, elements and bytes. If all words
/// of the message are in its first segment, and those of all new objects fit there too, no edit is
/// refused for lack of memory. Each edit is applied, or refused because of what its path leads to.
/// All words stay in the first segment. That segment grows by at most the new objects' words, its
/// capacity is unchanged, and the allocator refuses nothing.
pub fn fitting_edits()
    ensures { (old new : View) (edits : List Edit) (rs : List (Option ErrorKind)) (t : Tree)
        → IsForest old.words t → AreInFirst old.words
        → All (λ e. AsksNoMore (task_of e.op)) edits
        → length (segment old.words 0) + sum_by (λ e. words_asked (task_of e.op)) edits
        ≤ old.room 0
        → InTurn IsStep edits rs old new
        → All IsNoneOfMemory rs
        × (length (segment new.words 0)
        ≤ length (segment old.words 0) + sum_by (λ e. words_asked (task_of e.op)) edits)
        × AreInFirst new.words × (new.room 0 ≡ old.room 0) × (new.refusals ≡ old.refusals) }
{}
