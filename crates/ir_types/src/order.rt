//! An order of names in which layouts are found at once: each behind those that its struct holds. It is a matter of speed alone,
//! so nothing is promised of it.

use crate::Ty;
use crate::name_map::NameMap;
use crate::named::NamedTy;
use contents::Exact;
use std::alloc::{AllocError, Global};

/// Of each place among the types those that wait for it, and for how many it waits.
#[derive(Drop)]
struct Waiting {
    users: Vec<Vec<usize>>,
    counts: Vec<usize>,
}

fn no_users(alloc: Global, places: usize) -> Result<Vec<Vec<usize>>, AllocError> {
    let mut users = Vec::new(alloc);
    for _ in 0..places {
        users.push(Vec::new(alloc))?;
    }
    Ok(users)
}

fn no_counts(alloc: Global, places: usize) -> Result<Vec<usize>, AllocError> {
    let mut counts = Vec::new(alloc);
    for _ in 0..places {
        counts.push(0)?;
    }
    Ok(counts)
}

impl Waiting {
    fn with_places(alloc: Global, places: usize) -> Result<Waiting, AllocError> {
        Ok(Waiting {
            users: no_users(alloc, places)?,
            counts: no_counts(alloc, places)?,
        })
    }

    fn wait(&mut self, place: usize, other: usize) -> Result<(), AllocError> {
        if let Some(users) = self.users.get_mut(other) {
            users.push(place)?;
        }
        if let Some(count) = self.counts.get_mut(place) {
            *count = count.saturating_add(1);
        }
        Ok(())
    }

    /// The place waits for one less, and says whether it waits for none.
    fn goes_on(&mut self, place: usize) -> bool {
        match self.counts.get_mut(place) {
            Some(count) => {
                *count = count.saturating_sub(1);
                *count == 0
            }
            None => false,
        }
    }
}

/// The place waits for the names that the type holds outside of pointers.
fn wait_for(
    ty: &Ty,
    place: usize,
    places: &NameMap<usize>,
    waiting: &mut Waiting,
) -> Result<(), AllocError> {
    match ty {
        Ty::Array(_, element) => wait_for(element.get(), place, places, waiting),
        Ty::Struct(fields) => {
            for field in fields.get().as_slice() {
                wait_for(field, place, places, waiting)?;
            }
            Ok(())
        }
        Ty::Named(name) => match places.get(name.get()) {
            Some(other) => waiting.wait(place, *other),
            None => Ok(()),
        },
        _ => Ok(()),
    }
}

fn waiting_in(alloc: Global, types: &[NamedTy]) -> Result<Waiting, AllocError> {
    let mut places = NameMap::with_room(alloc, types.len())?;
    for i in 0..types.len() {
        if places.get(&types[i].name).is_none() {
            places.put(types[i].name.copy(alloc)?, i)?;
        }
    }
    let mut waiting = Waiting::with_places(alloc, types.len())?;
    for i in 0..types.len() {
        if let Some(fields) = &types[i].fields {
            for field in fields.get().as_slice() {
                wait_for(field, i, &places, &mut waiting)?;
            }
        }
    }
    Ok(waiting)
}

/// The places of the types, each behind those of the names that its struct holds; without those that hold themselves.
pub(crate) fn places_in_order(alloc: Global, types: &[NamedTy]) -> Result<Vec<usize>, AllocError> {
    let mut waiting = waiting_in(alloc, types)?;
    let mut order = Vec::new(alloc);
    for i in 0..types.len() {
        if waiting.counts.get(i).copied() == Some(0) {
            order.push(i)?;
        }
    }
    for i in 0..types.len() {
        let place = match order.get(i) {
            Some(place) => *place,
            None => break,
        };
        let mut users = Vec::new(alloc);
        if let Some(of_place) = waiting.users.get_mut(place) {
            users.append(of_place)?;
        }
        for user in users.as_slice() {
            if waiting.goes_on(*user) {
                order.push(*user)?;
            }
        }
    }
    Ok(order)
}
