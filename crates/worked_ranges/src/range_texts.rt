//! Answers of a range as text.
use crate::range_loans::{Back, Loan, Now, Refused, Unread};
use fault_device::Done;
use io_model::{Extent, Kind};
use iob_base::{Page, Part};
use range_core::{EventFault, Sample};
use std::alloc::{AllocError, Global};

/// An answer that can be told as text.
pub(crate) trait Told {
    /// The answer as text. Want of memory is the only error.
    fn told(&self, alloc: Global) -> Result<String, AllocError>;
}

impl<T: Told, E: Told> Told for Result<T, E> {
    fn told(&self, alloc: Global) -> Result<String, AllocError> {
        match self {
            Ok(answer) => answer.told(alloc),
            Err(refusal) => refusal.told(alloc),
        }
    }
}

impl Told for EventFault {
    fn told(&self, alloc: Global) -> Result<String, AllocError> {
        format!(in alloc; "{self:?}")
    }
}

impl Told for () {
    fn told(&self, alloc: Global) -> Result<String, AllocError> {
        String::from_str(alloc, "ok")
    }
}

impl Told for u64 {
    fn told(&self, alloc: Global) -> Result<String, AllocError> {
        format!(in alloc; "{self}")
    }
}

// Bytes as text: zeros are dots, and those that cannot be shown are `~`.
fn add_bytes(text: &mut String, bytes: &[u8]) -> Result<(), AllocError> {
    for byte in bytes {
        let shown = match *byte {
            0 => '.',
            b'!'..=b'z' => char::from(*byte),
            _ => '~',
        };
        text.push(shown)?;
    }
    Ok(())
}

impl Told for Vec<u8> {
    fn told(&self, alloc: Global) -> Result<String, AllocError> {
        let mut text = String::new(alloc);
        add_bytes(&mut text, self.as_slice())?;
        Ok(text)
    }
}

// The bytes of a page, after a bar.
fn add_page(text: &mut String, page: &Page) -> Result<(), AllocError> {
    text.push_str(" | ")?;
    add_bytes(text, page.bytes.as_slice())
}

fn add_parts(text: &mut String, parts: &[Part]) -> Result<(), AllocError> {
    for part in parts {
        add_page(text, &part.page)?;
    }
    Ok(())
}

impl Told for Refused {
    fn told(&self, alloc: Global) -> Result<String, AllocError> {
        let Refused { fault, pages } = self;
        let mut text = fault.told(alloc)?;
        add_parts(&mut text, pages.as_slice())?;
        Ok(text)
    }
}

impl Told for Unread {
    fn told(&self, alloc: Global) -> Result<String, AllocError> {
        let Unread { fault, pages } = self;
        let mut text = fault.told(alloc)?;
        add_parts(&mut text, pages.as_slice())?;
        Ok(text)
    }
}

fn kind_text(alloc: Global, kind: Kind) -> Result<String, AllocError> {
    match kind {
        Kind::Hole => format!(in alloc; "hole"),
        Kind::Delalloc => format!(in alloc; "delalloc"),
        Kind::Unwritten(d) => format!(in alloc; "unwritten {d}"),
        Kind::Mapped(d) => format!(in alloc; "mapped {d}"),
    }
}

/// The blocks of the extent as the first and their number.
impl Told for Sample {
    fn told(&self, alloc: Global) -> Result<String, AllocError> {
        let Sample {
            cookie,
            errors,
            extent,
        } = *self;
        let Extent {
            block,
            length,
            kind,
        } = extent;
        let kind = kind_text(alloc, kind)?;
        format!(in alloc; "cookie {cookie}, errors {errors}, {block}+{length} {kind}")
    }
}

impl Told for Loan {
    fn told(&self, alloc: Global) -> Result<String, AllocError> {
        match self {
            Loan::Ticket {
                ticket,
                block,
                blocks,
            } => format!(in alloc; "ticket {ticket}, {block}+{blocks}"),
            Loan::Zeros(pages) => {
                let mut text = String::from_str(alloc, "zeros")?;
                add_parts(&mut text, pages.as_slice())?;
                Ok(text)
            }
        }
    }
}

fn done_text(alloc: Global, done: &Done) -> Result<String, AllocError> {
    let Done {
        landed,
        blocks,
        failed,
        ..
    } = *done;
    let came = if failed { "failed" } else { "done" };
    format!(in alloc; "{came}, {landed} of {blocks}")
}

impl Told for Back {
    fn told(&self, alloc: Global) -> Result<String, AllocError> {
        let mut text = done_text(alloc, &self.done)?;
        if let Some(n) = self.written {
            let written = format!(in alloc; ", {n} written")?;
            text.push_str(written.as_str())?;
        }
        if let Some(pages) = &self.pages {
            add_parts(&mut text, pages.as_slice())?;
        }
        Ok(text)
    }
}

impl Told for Now {
    fn told(&self, alloc: Global) -> Result<String, AllocError> {
        let Now { blocks, pages } = self;
        let mut text = format!(in alloc; "read {blocks}")?;
        add_parts(&mut text, pages.as_slice())?;
        Ok(text)
    }
}
