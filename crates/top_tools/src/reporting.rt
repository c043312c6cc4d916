//! The report of certificates, for the commands that make one.
ghost use Rattle.std.specs.Prelude.{◌≡◌, ◌≤◌, IfOk};
ghost use Rattle.cut_witness.specs.Certificate.{AreCertificates};
ghost use Rattle.report_text.specs.Report.{report_of};

use cut_witness::Cert;
use net_model::Net;
use report_text::{head, with_entries};
use std::alloc::{AllocError, Global};
use std::thread::Threads;

/// The report of certificates, with a rate. At most so many workers make its lines, side by side.
pub fn report_of<R: Threads + Sync>(
    rt: &R,
    alloc: Global,
    net: &Net,
    rate: u32,
    certs: &[Cert],
    workers: u32,
) -> Result<Vec<u8>, AllocError>
    requires certificates { AreCertificates net.now certs.now }
    requires workers { 1 ≤ workers }
    ensures { IfOk result (λ text. text.items ≡ report_of net.now rate certs.now) }
{
    let text = head(alloc, rate)?;
    with_entries(rt, alloc, text, net, certs, workers)
}
