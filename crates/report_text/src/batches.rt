//! The lines of certificates, made in batches side by side.
ghost use Rattle.std.specs.Prelude.{◌≡◌, ◌++◌, ◌≤◌, All, IfOk, flat_map};
ghost use Rattle.report_text.specs.Report.{IsPrintable, entry_text};
ghost use Rattle.report_text.specs.Batches.{AreJoined};

use crate::report::entry;
use cut_witness::Cert;
use lif_outside::batch_size;
use net_model::Net;
use std::alloc::{AllocError, Global};
use std::thread::{Threads, map_chunks};

/// A text with the lines of certificates behind it, those of one after those of another. They are made in at most so many
/// batches of adjacent certificates, side by side.
pub fn with_entries<R: Threads + Sync>(
    rt: &R,
    alloc: Global,
    text: Vec<u8>,
    net: &Net,
    certs: &[Cert],
    workers: u32,
) -> Result<Vec<u8>, AllocError>
    requires workers { 1 ≤ workers }
    requires printable { All (IsPrintable net.now) certs.now }
    ensures { IfOk result (λ whole. whole.items
        ≡ text.items ++ flat_map (entry_text net.now) certs.now) }
{
    let size = batch_size(certs.len(), workers as usize);
    let batches = map_chunks(
        rt,
        alloc,
        certs,
        size,
        &|_start: usize, batch: &[Cert]| { batch_entries(alloc, net, batch) },
    )?;
    join(text, batches)
}

// The lines of one batch of certificates.
fn batch_entries(alloc: Global, net: &Net, certs: &[Cert]) -> Result<Vec<u8>, AllocError>
    requires { All (IsPrintable net.now) certs.now }
    ensures { IfOk result (λ text. text.items ≡ flat_map (entry_text net.now) certs.now) }
{
    let mut text = Vec::new(alloc);
    for cert in certs {
        let lines = entry(alloc, net, cert)?;
        text.extend_from_slice(&lines)?;
    }
    Ok(text)
}

// A text with those of all batches behind it, in their order.
fn join(text: Vec<u8>, batches: Vec<Result<Vec<u8>, AllocError>>) -> Result<Vec<u8>, AllocError>
    ensures { IfOk result (λ whole. AreJoined text.items batches.items whole.items) }
{
    let mut whole = text;
    for lines in batches {
        whole.append(&mut lines?)?;
    }
    Ok(whole)
}
