//! What a site writes and deletes.
ghost use Rattle.std.specs.Prelude.{◌≡◌, ◌≤◌, ◌<◌, ◌+◌, ℕ, List, length, OnOk, OnErr, IsOk, IfOk, IfErr, MatchResult, cond, Some, None, Option};
ghost use Rattle.geo_requests.specs.Limits.{longest_value};
ghost use Rattle.geo_versions.specs.Maps.{rec_means};
ghost use Rattle.geo_records.specs.Operations.Act.{Write, Delete};
ghost use Rattle.std.specs.Prelude.{[], ◌∷◌};
ghost use Rattle.geo_site.specs.Machine.{Same, victim_by, VictimFits};
ghost use Rattle.geo_site.specs.Entries.{evicted_on};
ghost use Rattle.geo_site.specs.Sites.{state_in, counts_in, waiting_in, Rests, Stays, HasIssued};
ghost use Rattle.geo_site.specs.Changes.{bytes_in, next_stamp_of, CanWrite, WriteRefuses, HasRecord, EffectDoes, TellsEffect, effect_done, IsShort, IsThere};

use crate::acted::Beside;
use crate::notes::note;
use crate::reap::earlier;
use crate::refusal::WriteError;
use crate::site::Site;
use geo_lattice::{Lww, Pair, Twin};
use geo_memcache::{Ask, Effect};
use geo_stamp::Stamp;
use geo_values::Blob;
use geo_versions::{Body, Key, Length, Rec};
use std::alloc::{AllocError, Global};

/// The bytes that are asked to be stored, where they stand; none where none are asked to be.
fn asked<'a>(ask: &Ask<'a>) -> Blob<'a>
    ensures { result ≡ bytes_in ask.now }
{
    match *ask {
        Ask::Store { bytes, .. } => Blob::known(bytes.as_slice(), bytes.digest()),
        Ask::Fetch { .. }
        | Ask::FetchTouch { .. }
        | Ask::Delete
        | Ask::Touch { .. }
        | Ask::Arith { .. } => Blob::new(&[]),
    }
}

/// The record of a write.
fn record_of(stamp: Stamp, body: Body, expiry: u64) -> Rec
    ensures { rec_means result ≡ (Some (stamp, body), Some (stamp, expiry)) }
{
    Pair {
        left: Lww::of(stamp, body),
        right: Lww::of(stamp, expiry),
    }
}

impl Site {
    /// The stamp of the next operation on a key. MapFull where the map is full and has no record of the key, then ClockEnded
    /// where no stamp is left.
    pub(crate) fn next_stamp(&self, key: &Key) -> Result<Stamp, WriteError>
        ensures stamp { IfOk result (λ stamp. CanWrite self.now key.now × (stamp ≡ next_stamp_of self.now)) }
        ensures refused { IfErr result (λ why. WriteRefuses self.now key.now why × (why ≡ WriteError.Memory → ⊥)) }
    {
        if self.versions.len() >= self.limits.max_records as usize
            && self.versions.record(key).is_none()
        {
            return Err(WriteError::MapFull);
        }
        let top = self.vector.greatest();
        match Stamp::new(top + 1, self.number) {
            Some(stamp) => Ok(stamp),
            None => Err(WriteError::ClockEnded),
        }
    }

    /// Counts a victim, if there is one.
    fn count_victim(&mut self, victim: &Option<Key>)
        ensures counts { counts_in self.new ≡ evicted_on victim.now (counts_in self.old) }
        ensures state { Same (state_in self.old) (state_in self.new) }
        ensures waiting { waiting_in self.new ≡ waiting_in self.old }
        ensures stays { Stays self.old self.new }
    {
        if victim.is_some() {
            self.evictions = self.evictions.saturating_add(1);
        }
    }

    /// Writes a value, holds its bytes, and gives the key whose bytes were evicted for them, if any. The growths come first: an Err
    /// changes nothing.
    fn write(
        &mut self,
        alloc: Global,
        stamp: Stamp,
        key: &Key,
        flags: u32,
        expiry: u64,
        value: &Blob<'_>,
    ) -> Result<Option<Key>, AllocError>
        requires next { stamp ≡ next_stamp_of self.old }
        requires short { length value.now ≤ longest_value }
        ensures written { OnOk result (HasIssued self.old self.new (Write key.now value.now flags expiry ∷ [])) }
        ensures victim { IfOk result (λ victim. victim ≡ victim_by (Write key.now value.now flags expiry) (state_in self.old).stock) }
        ensures fits { OnOk result (VictimFits (Write key.now value.now flags expiry) (state_in self.old).stock) }
        ensures err { OnErr result (Same (state_in self.old) (state_in self.new)) }
        ensures rests { Rests self.old self.new }
        ensures stays { Stays self.old self.new }
    {
        let length = Length::of(value.bytes().len() as u32);
        let body = Body::Value {
            digest: value.digest(),
            flags,
            length,
        };
        let mut records = Vec::with_capacity(alloc, 1)?;
        records.push((key.twin(alloc)?, record_of(stamp, body, expiry)))?;
        self.versions.ready_records(alloc, &records)?;
        let victim = self.values.store(alloc, key, value)?;
        self.versions.join_records(None, records);
        self.vector.raise(self.number, stamp.time());
        note(&mut self.changes, key, &self.vector);
        self.earliest = earlier(self.earliest, expiry);
        Ok(victim)
    }

    /// Deletes a key: its record says so from now on, and its bytes are dropped. An Err changes nothing.
    pub(crate) fn delete(
        &mut self,
        alloc: Global,
        stamp: Stamp,
        key: &Key,
    ) -> Result<(), AllocError>
        requires next { stamp ≡ next_stamp_of self.old }
        ensures deleted { OnOk result (HasIssued self.old self.new (Delete key.now ∷ [])) }
        ensures err { OnErr result (Same (state_in self.old) (state_in self.new)) }
        ensures succeeds { HasRecord self.old key.now → IsOk result }
        ensures rests { Rests self.old self.new }
        ensures stays { Stays self.old self.new }
    {
        self.versions.write(alloc, key, stamp, Body::Gone, 0)?;
        self.vector.raise(self.number, stamp.time());
        note(&mut self.changes, key, &self.vector);
        self.values.drop_key(key);
        Ok(())
    }

    /// Carries an effect on a key out. A refusal changes nothing.
    pub(crate) fn carry_out(
        &mut self,
        alloc: Global,
        key: &Key,
        effect: Effect,
        ask: &Ask<'_>,
    ) -> Result<Beside, WriteError>
        requires short { IsShort effect (bytes_in ask.now) }
        requires there { IsThere self.old key.now effect }
        ensures does { EffectDoes self.old self.new key.now (bytes_in ask.now) effect (effect_done result) }
        ensures told { IfOk result (TellsEffect self.old key.now (bytes_in ask.now) effect) }
        ensures waiting { waiting_in self.new ≡ waiting_in self.old }
        ensures stays { Stays self.old self.new }
    {
        match effect {
            Effect::Nothing => Ok(Beside::nothing()),
            Effect::Keep { flags, expiry } => {
                let stamp = self.next_stamp(key)?;
                let value = asked(ask);
                let victim = self.write(alloc, stamp, key, flags, expiry, &value)?;
                self.count_victim(&victim);
                Ok(Beside { victim, made: None })
            }
            Effect::Made {
                bytes,
                flags,
                expiry,
            } => {
                let stamp = self.next_stamp(key)?;
                let length = bytes.len() as u32;
                let value = Blob::new(bytes.as_slice());
                let victim = self.write(alloc, stamp, key, flags, expiry, &value)?;
                self.count_victim(&victim);
                let made = Some((value.digest(), length));
                Ok(Beside { victim, made })
            }
            Effect::Renew { expiry } => {
                let stamp = self.next_stamp(key)?;
                self.values.hit(key);
                self.renew(stamp, key, expiry);
                Ok(Beside::nothing())
            }
            Effect::Tomb => {
                let stamp = self.next_stamp(key)?;
                self.delete(alloc, stamp, key)?;
                Ok(Beside::nothing())
            }
        }
    }
}
