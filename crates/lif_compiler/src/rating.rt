//! The rate of a network's codes, where a code can have it.
ghost use Rattle.std.specs.Prelude.{◌≡◌, ◌≤◌, ℕ, IfErr, IfOk};
ghost use Rattle.cut_witness.specs.Certificate.{AreCertificates, IsLeastValue};
ghost use Rattle.net_model.specs.Limits.{highest_rate};
ghost use Rattle.lif_compiler.specs.Rating.{IsFirstOf, IsRateUsed};
ghost use Rattle.lif_compiler.specs.Refused.{IsBadRate};

use crate::CompileRefusal;
use cut_witness::{Cert, rate};
use net_model::{HIGHEST_RATE, Net, Side};
use std::alloc::{AllocError, Global};

/// The rate of a network's codes, by the certificates of its demands: the wanted one, where there is one, and else their
/// least value. It is 1 to 32 and at most the least value; a refusal names the first demand that shows that it isn't.
pub fn bounded_rate(alloc: Global, net: &Net, certs: &[Cert]) -> Result<u32, CompileRefusal>
    requires { AreCertificates net.now certs.now }
    ensures used { IfOk result (IsRateUsed net.now certs.now) }
    ensures some_rate { IfOk result (λ rate. 1 ≤ rate) }
    ensures low_rate { IfOk result (λ rate. rate ≤ highest_rate) }
    ensures refused { IfErr result (IsBadRate net.now) }
{
    let least = rate(certs);
    if least == 0 {
        let number = first_at_most(certs, 0);
        let side = side_of(alloc, &certs[number])?;
        return Err(CompileRefusal::ZeroRate {
            demand: number as u32,
            side,
        });
    }
    let used = net.wanted.unwrap_or(least);
    if used > least {
        let number = first_at_most(certs, used - 1);
        let cert = &certs[number];
        let side = side_of(alloc, cert)?;
        return Err(CompileRefusal::RateUnmet {
            demand: number as u32,
            side,
            least: cert.value,
        });
    }
    if used > HIGHEST_RATE {
        let demand = first_at_most(certs, least) as u32;
        return Err(CompileRefusal::RateOver { demand, least });
    }
    Ok(used)
}

// The least side of a certificate.
fn side_of(alloc: Global, cert: &Cert) -> Result<Side, AllocError>
    ensures { IfOk result (λ side. side ≡ cert.now.side) }
{
    Ok(Side::of(Vec::from_slice(alloc, cert.side.as_slice())?))
}

// The number of the first certificate whose value is at most this, which the least value is.
fn first_at_most(certs: &[Cert], most: u32) -> usize
    requires { (least : ℕ) × IsLeastValue certs.now least × (least ≤ most) }
    ensures { IsFirstOf (λ value. value ≤ most) certs.now result }
{
    for (number, cert) in certs.iter().enumerate() {
        if cert.value <= most {
            return number;
        }
    }
    unreachable!()
}
