//! The listeners are opened.
ghost use Rattle.std.specs.Prelude.{◌≡◌, length, vec_len, Bool, IfErr, IfOk};
ghost use Rattle.socket_source.specs.Opens.{IsFaultOf};

use crate::bound::{Bound, bind, check_inherited};
use crate::listener::Listener;
use crate::open_fault::OpenFault;
use crate::ready::listener_number;
use mio::Registry;
use std::alloc::{AllocError, Global};
use std::io;
use std::rt::Files;

// the first descriptor that a service manager hands over
const FIRST_INHERITED: u16 = 3;

/// Refuses a descriptor that was handed over if it is not what is asked for. This comes before
/// anything is opened, which could take its place.
pub(crate) fn check_descriptors(listeners: &[Listener<'_>]) -> Result<(), OpenFault>
    ensures { (waits : Bool) → IfErr result (IsFaultOf (length listeners.now) waits) }
{
    let mut number = FIRST_INHERITED;
    for (listener, asked) in listeners.iter().enumerate() {
        if let Listener::Inherited(inherited) = asked {
            if let Err(cause) = check_inherited(i32::from(number), *inherited) {
                return Err(OpenFault::Listener { listener, cause });
            }
            number = number.saturating_add(1);
        }
    }
    Ok(())
}

// Opens a listener's socket, and has the system report it.
fn open_listener(
    rt: &impl Files,
    alloc: Global,
    registry: &Registry,
    asked: Listener<'_>,
    inherited: u16,
    number: usize,
    receive_buffer: Option<u32>,
) -> io::Result<Bound> {
    let mut bound = bind(rt, alloc, asked, inherited)?;
    if let Some(octets) = receive_buffer {
        bound.raise_receive_buffer(octets)?;
    }
    bound.register(registry, number)?;
    Ok(bound)
}

/// Opens the sockets of all listeners, in their order.
pub(crate) fn open_listeners(
    rt: &impl Files,
    alloc: Global,
    registry: &Registry,
    listeners: &[Listener<'_>],
    receive_buffer: Option<u32>,
) -> Result<Vec<Bound>, OpenFault>
    ensures all { IfOk result (λ bound. vec_len bound ≡ length listeners.now) }
    ensures told { (waits : Bool) → IfErr result (IsFaultOf (length listeners.now) waits) }
{
    let mut all = Vec::with_capacity(alloc, listeners.len())?;
    let mut inherited = FIRST_INHERITED;
    for (listener, asked) in listeners.iter().enumerate() {
        let number = listener_number(listener);
        match open_listener(
            rt,
            alloc,
            registry,
            *asked,
            inherited,
            number,
            receive_buffer,
        ) {
            Ok(bound) => all.push(bound).map_err(AllocError::from)?,
            Err(cause) => return Err(OpenFault::Listener { listener, cause }),
        }
        if matches!(asked, Listener::Inherited(_)) {
            inherited = inherited.saturating_add(1);
        }
    }
    Ok(all)
}
