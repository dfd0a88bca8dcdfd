//! A number for each of many places, of which few are in use.

ghost use Rattle.std.specs.Prelude.{◌≡◌, ◌≢◌, ℕ, ◌+◌, ◌*◌, ◌<◌, ◌≤◌, length, slice_index, slice_set, vec_len, replicate, IfOk, OnOk};
ghost use Rattle.unique_table.specs.Pages.{number_at, ArePages};

use std::alloc::{AllocError, Global};
use std::marker::Model;

const PAGE: usize = 64;

/// A number for each place, at first 0. Pages of 64 places on which a number was set have memory of
/// their own; all others share a page of zeros.
#[derive(Drop)]
pub(crate) struct Numbers {
    places: usize,
    /// Entry k: the page of the places from 64 * k on. Page 0 is the shared page of zeros.
    pages: Vec<usize>,
    /// The numbers of all pages, page by page.
    numbers: Vec<u32>,
}

impl Model for Numbers {
    ghost use Rattle.std.specs.Prelude.{◌≤◌, ◌*◌, ℕ, List, length};
    ghost use Rattle.unique_table.specs.Pages.{numbers_of, ArePages};

    ghost Value = { List ℕ };

    ghost view = { λ n. numbers_of n.places n.pages.items n.numbers.items };

    ghost invariant = { λ n. ArePages n.pages.items n.numbers.items
        × (n.places ≤ length n.pages.items * 64) };
}

/// Gives the places from 64 * `part` on a page of their own if they have none, and returns its
/// number. No place's number changes, even if memory is refused.
fn open_page(
    pages: &mut Vec<usize>,
    numbers: &mut Vec<u32>,
    part: usize,
) -> Result<usize, AllocError>
    requires pages { ArePages pages.old.items numbers.old.items }
    requires part { part < vec_len pages.old }
    ensures pages { ArePages pages.new.items numbers.new.items }
    ensures many { vec_len pages.new ≡ vec_len pages.old }
    ensures same { (p : ℕ) → p < vec_len pages.old * 64 →
        number_at pages.new.items numbers.new.items p
        ≡ number_at pages.old.items numbers.old.items p }
    ensures own { IfOk result (λ page. page ≡ slice_index pages.new.items part) }
    ensures open { IfOk result (λ page. page ≢ 0) }
{
    if pages[part] == 0 {
        let next = numbers.len();
        numbers.resize(next + PAGE, 0)?;
        pages[part] = next / PAGE;
    }
    Ok(pages[part])
}

impl Numbers {
    /// Numbers for `places` places, each 0.
    pub fn zeros(alloc: Global, places: usize) -> Result<Numbers, AllocError>
        ensures { IfOk result (λ n. n ≡ replicate places 0) }
    {
        Ok(Numbers {
            places,
            pages: vec![in alloc; 0usize; places / PAGE + 1]?,
            numbers: vec![in alloc; 0u32; PAGE]?,
        })
    }

    /// The number of place `place`, 0 if none was set.
    pub fn get(&self, place: usize) -> u32
        requires { place < length self.now }
        ensures { result ≡ slice_index self.now place }
    {
        self.numbers[self.pages[place / PAGE] * PAGE + place % PAGE]
    }

    /// Sets the number of place `place`. After an error all numbers are as before.
    pub fn set(&mut self, place: usize, number: u32) -> Result<(), AllocError>
        requires { place < length self.old }
        ensures many { length self.new ≡ length self.old }
        ensures set { OnOk result (self.new ≡ slice_set self.old place number) }
    {
        let page = open_page(&mut self.pages, &mut self.numbers, place / PAGE)?;
        self.numbers[page * PAGE + place % PAGE] = number;
        Ok(())
    }
}
