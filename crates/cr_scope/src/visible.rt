//! All that a name could mean at one point.
ghost use Rattle.std.specs.Prelude.{◌≡◌};
ghost use Rattle.std.specs.Iterator.{YieldsFirstBy, item_count};
ghost use Rattle.cr_scope.specs.Declarations.{number, numbers_from};
ghost use Rattle.cr_scope.specs.Kept.{depths_seen};

use crate::{DeclNo, Scopes, Space};
use cr_base::Name;
use std::marker::Model;

/// The declarations of a name that are visible at one point, those that others hide too: from the deepest scope
/// outward, and of one scope the last declaration first.
#[derive(Drop)]
pub struct VisibleDecls<'a> {
    scopes: &'a Scopes,
    space: Space,
    name: Name,
    // of this depth the declarations from number `end` on are given, and those of all greater depths
    depth: usize,
    end: usize,
}

impl<'a> Model for VisibleDecls<'a> {
    ghost use Rattle.std.specs.Prelude.{List, ℕ, ◌≤◌, length};

    ghost Value = { List ℕ };

    ghost use Rattle.cr_scope.specs.Kept.{depths_seen, rest_from};

    ghost view = { λ a. rest_from a.depth a.end (depths_seen a.scopes.now a.space a.name) };

    ghost invariant = { λ a. a.end ≤ length a.scopes.now.entries };
}

impl<'a> VisibleDecls<'a> {
    // Those up to a depth.
    pub(crate) fn new(scopes: &'a Scopes, space: Space, name: Name, depth: usize) -> Self
        ensures { result ≡ numbers_from depth (depths_seen scopes.now space name) }
    {
        VisibleDecls {
            scopes,
            space,
            name,
            depth,
            end: scopes.len(),
        }
    }
}

impl<'a> Iterator for VisibleDecls<'a> {
    type Item = DeclNo;

    ghost next_gives = { YieldsFirstBy number (λ s. s) };

    ghost remaining = { item_count (λ s. s) };

    fn next(&mut self) -> Option<DeclNo> {
        let (depth, n) = self
            .scopes
            .next_visible(self.space, self.name, self.depth, self.end)?;
        self.depth = depth;
        self.end = n;
        Some(DeclNo(n))
    }
}
