//! The reports that an owner hasn't taken.

ghost use Rattle.std.specs.Prelude.{◌≡◌, ◌<◌, ◌≤◌, ◌↔◌, [], ◌∷◌, ◌++◌, IfOk, IsSome, vec_len, vec_capacity};
ghost use Rattle.std.specs.Option.{option_to_list};

use crate::report::Report;
use std::alloc::{AllocError, Global};

/// How many reports are kept that the owner hasn't taken. What comes then isn't reported.
pub const MOST_REPORTS: usize = 64;

/// The reports that the owner hasn't taken, in order.
#[derive(Drop)]
pub struct Reports {
    kept: Vec<Report>,
    ghost few: { vec_len kept ≤ 64 },
    // There is room for all that are kept.
    ghost room: { 64 ≤ vec_capacity kept },
}

impl Reports {
    /// No report, and the memory for all that are kept.
    pub fn new(alloc: Global) -> Result<Reports, AllocError>
        ensures none { IfOk result (λ reports. reports.kept.items ≡ []) }
    {
        Ok(Reports {
            kept: Vec::with_capacity(alloc, MOST_REPORTS)?,
        })
    }

    /// Keeps a report behind the others, unless too many are kept. It takes no memory.
    pub fn add(&mut self, report: Report)
        ensures kept { vec_len self.old.kept < 64 → self.new.kept.items ≡ self.old.kept.items ++ report ∷ [] }
        ensures full { 64 ≤ vec_len self.old.kept → self.new ≡ self.old }
    {
        if self.kept.len() < MOST_REPORTS {
            let _ = self.kept.extend_from_slice(&[report]);
        }
    }

    /// Hands the first report out.
    pub fn take(&mut self) -> Option<Report>
        ensures first { self.old.kept.items ≡ option_to_list result ++ self.new.kept.items }
        ensures some { IsSome result ↔ (0 < vec_len self.old.kept) }
    {
        if self.kept.is_empty() {
            return None;
        }
        Some(self.kept.remove(0))
    }
}
