// The sum of the h largest absolute values of a list of signed bytes, in h places that the caller lends.
ghost use Rattle.std.specs.Prelude.{◌≡◌, length};
ghost use Rattle.ring.specs.Largest.{push, places, largest, sizes, sum_passes, Few};

use crate::signed_byte;
use std::mem;

// Pushes x into the slots: at each one the larger stays and the smaller moves on.
fn put(x: u32, slots: &mut [u32])
    ensures { slots.new ≡ push x slots.old }
{
    let mut moving = x;
    for slot in slots.iter_mut() {
        if *slot < moving {
            mem::swap(slot, &mut moving);
        }
    }
}

// The h largest absolute values of the signed bytes e in h slots, whatever they held: they are pushed in from the last byte to the first.
fn pick(e: &[u8], slots: &mut [u32])
    ensures { slots.new ≡ places (length slots.old) (sizes e.now) }
{
    slots.fill(0);
    for b in e.iter().rev() {
        put(signed_byte(*b).unsigned_abs(), slots);
    }
}

// The sum of the h largest absolute values of the signed bytes e, found in h slots, whatever they held.
fn largest_sum(e: &[u8], slots: &mut [u32]) -> u32
    requires { Few slots.old }
    ensures value { result ≡ largest (length slots.old) (sizes e.now) }
    ensures slots_after { slots.new ≡ places (length slots.old) (sizes e.now) }
{
    pick(e, slots);
    slots.iter().sum()
}

// Whether that sum is at most the bound: checkS and checkE.
pub fn sum_passes(e: &[u8], slots: &mut [u32], bound: u32) -> bool
    requires { Few slots.old }
    ensures value { result ≡ sum_passes (length slots.old) bound e.now }
    ensures slots_after { slots.new ≡ places (length slots.old) (sizes e.now) }
{
    largest_sum(e, slots) <= bound
}
