// The two states of a sheet: a draft takes changes, an issued sheet takes none.
ghost use Rattle.std.specs.Prelude.{◌≡◌, IfOk};
ghost use Rattle.sheet.specs.Content.{content, on_draft, blank};
ghost use Rattle.sheet.specs.Laws.{Laws, Sound};

use crate::plain::Sheet;
use std::alloc::{AllocError, Global};

mod calls;

// A sheet that takes entries and changes.
#[derive(Drop)]
pub struct Draft {
    sheet: Sheet,
}

// A sheet that stands as it was issued.
#[derive(Drop)]
pub struct Issued {
    sheet: Sheet,
}

impl Draft {
    // A blank draft. This is the only call that asks for memory. Every call on it and on what comes of it keeps the laws.
    pub fn new(heap: Global) -> Result<Draft, AllocError>
        ensures draft { IfOk result (λ d. on_draft d ≡ blank) }
        ensures laws { Laws }
    {
        Ok(Draft {
            sheet: Sheet::blank(heap)?,
        })
    }

    // What is on the draft.
    pub fn sheet(&self) -> &Sheet
        ensures { result.now ≡ self.now.sheet }
    {
        &self.sheet
    }

    // Issues the sheet; all that is on it stays.
    pub fn issue(self) -> Issued
        ensures { result.sheet ≡ self.sheet }
    {
        let Draft { sheet } = self;
        Issued { sheet }
    }
}

impl Issued {
    // What is on the issued sheet.
    pub fn sheet(&self) -> &Sheet
        ensures same { result.now ≡ self.now.sheet }
        ensures sound { Sound (content result.now) }
    {
        &self.sheet
    }

    // Turns the sheet back into a draft; all that is on it stays.
    pub fn reopen(self) -> Draft
        ensures { result.sheet ≡ self.sheet }
    {
        let Issued { sheet } = self;
        Draft { sheet }
    }
}
