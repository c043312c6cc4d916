//! The lines of a report.
ghost use Rattle.std.specs.Prelude.{◌≡◌, ◌<◌, ◌++◌, All, IfOk, OnOk, decimal, length};
ghost use Rattle.report_text.specs.Report.{IsPrintable, entry_text, head_text, path_text, paths_text, title_text};

use crate::room::{HEAD_ROOM, entry_room};
use cut_witness::Cert;
use itoa::Buffer;
use name_texts::{push_demand, push_links, push_side};
use net_model::{LinkList, Net};
use std::alloc::{AllocError, Global};

/// The first line of a report: the rate.
pub fn head(alloc: Global, rate: u32) -> Result<Vec<u8>, AllocError>
    ensures { IfOk result (λ text. text.items ≡ head_text rate) }
{
    let mut text = Vec::with_capacity(alloc, HEAD_ROOM)?;
    text.extend_from_slice(b"rate ")?;
    push_number(&mut text, u64::from(rate))?;
    text.push(b'\n')?;
    Ok(text)
}

/// The lines of a certificate: the demand with the size of its cut, the nodes of its side, the
/// links that cross it, and each path.
pub fn entry(alloc: Global, net: &Net, cert: &Cert) -> Result<Vec<u8>, AllocError>
    requires { IsPrintable net.now cert.now }
    ensures { IfOk result (λ text. text.items ≡ entry_text net.now cert.now) }
{
    let mut text = Vec::with_capacity(alloc, entry_room(cert))?;
    push_title(&mut text, net, cert)?;
    text.extend_from_slice(b"\nside")?;
    push_side(&mut text, net, cert.side.as_slice())?;
    text.extend_from_slice(b"\ncross")?;
    push_links(&mut text, net, cert.cut.as_slice())?;
    text.push(b'\n')?;
    push_paths(&mut text, net, cert.paths.as_slice())?;
    Ok(text)
}

// Adds the digits of a number to a text.
fn push_number(text: &mut Vec<u8>, number: u64) -> Result<(), AllocError>
    ensures { OnOk result (text.new.items ≡ text.old.items ++ decimal number) }
{
    let mut digits = Buffer::new();
    text.extend_from_slice(digits.format(number).as_bytes())?;
    Ok(())
}

// Adds the demand of a certificate to a text, and the size of its cut.
fn push_title(text: &mut Vec<u8>, net: &Net, cert: &Cert) -> Result<(), AllocError>
    requires { IsPrintable net.now cert.now }
    ensures { OnOk result (text.new.items ≡ text.old.items ++ title_text net.now cert.now) }
{
    text.extend_from_slice(b"demand ")?;
    push_demand(text, net, cert.demand)?;
    text.extend_from_slice(b" cut ")?;
    push_number(text, u64::from(cert.value))
}

// Adds the line of a path to a text.
fn push_path(text: &mut Vec<u8>, net: &Net, path: &[u32]) -> Result<(), AllocError>
    requires { All (λ link. link < length net.now.links) path.now }
    ensures { OnOk result (text.new.items ≡ text.old.items ++ path_text net.now path.now) }
{
    text.extend_from_slice(b"path")?;
    push_links(text, net, path)?;
    text.push(b'\n')?;
    Ok(())
}

// Adds a line for each path to a text.
fn push_paths(text: &mut Vec<u8>, net: &Net, paths: &[LinkList]) -> Result<(), AllocError>
    requires { All (All (λ link. link < length net.now.links)) paths.now }
    ensures { OnOk result (text.new.items ≡ text.old.items ++ paths_text net.now paths.now) }
{
    for path in paths {
        push_path(text, net, path.as_slice())?;
    }
    Ok(())
}
