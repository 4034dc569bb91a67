//! A keeper whose entries are noted.
ghost use Rattle.std.specs.Prelude.{◌≡◌};

use crate::last::{Last, act_of};
use crate::watch::Watch;
use room_1401::{Entry, Keeper, Unkept};
use std::sync::Wait;
use std::time::Clock;

/// Keeps what another keeper keeps, and notes each entry, and whether it was kept.
#[derive(Drop)]
pub struct NotingKeeper<'a, K: Keeper + Drop, R: Wait + Clock> {
    keeper: K,
    watch: &'a Watch,
    rt: &'a R,
}

impl<'a, K: Keeper + Drop, R: Wait + Clock> NotingKeeper<'a, K, R> {
    /// A keeper that keeps by this one.
    pub fn new(keeper: K, watch: &'a Watch, rt: &'a R) -> NotingKeeper<'a, K, R>
        ensures kept { ⟦<NotingKeeper<'a, K, R> as Keeper>⟧.kept result ≡ K.kept keeper }
        ensures failed { ⟦<NotingKeeper<'a, K, R> as Keeper>⟧.has_failed result ≡ K.has_failed keeper }
    {
        NotingKeeper { keeper, watch, rt }
    }
}

impl<K: Keeper + Drop, R: Wait + Clock> Keeper for NotingKeeper<'_, K, R> {
    ghost kept = { λ noting. K.kept noting.keeper };

    ghost first = { K.first };

    ghost has_failed = { λ noting. K.has_failed noting.keeper };

    ghost form = { K.form };

    fn has_failed(&self) -> bool {
        self.keeper.has_failed()
    }

    fn keep(&mut self, number: u64, entry: &Entry) -> Result<(), Unkept> {
        let kept = self.keeper.keep(number, entry);
        let given = Last {
            seat: entry.seat,
            act: act_of(&entry.command),
        };
        self.watch.note(self.rt, number, given, kept.is_ok());
        kept
    }
}
