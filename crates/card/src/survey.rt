// What the bytes of a card say, read from its storage.
ghost use Rattle.std.specs.Prelude.{◌≡◌, ◌+◌, ◌<◌};
ghost use Rattle.storage.specs.Traces.{Asked};
ghost use Rattle.ring.specs.Layout.{header_width};
ghost use Rattle.ring.specs.Headers.{header_of};
ghost use Rattle.card.specs.Reads.{ReadsUpTo};
ghost use Rattle.card.specs.Refusals.{answered};
ghost use Rattle.card.specs.Surveys.{reads_next, reads_of, OnNext, OnWalk, OnSurvey};

use crate::header::read_header;
use crate::reads::read_number;
use crate::refusal::OpenRefusal;
use ring::head::Head;
use ring::walk::Walk;
use storage::storage::Storage;

// Passes the next element, once its length is read.
fn pass_next<S: Storage>(s: &mut S, walk: &mut Walk) -> Result<(), OpenRefusal<S::Gone>>
    requires in_order { (S.Storage.means s.old).in_order }
    requires sized { walk.old.size ≡ (S.Storage.means s.old).size }
    requires more { walk.old.passed < walk.old.header.count }
    ensures in_order { (S.Storage.means s.new).in_order }
    ensures does { OnNext walk.old walk.new (S.Storage.means s.old) (S.Storage.means s.new) result }
    ensures calls { Asked S.Storage.did (ReadsUpTo 4) (reads_next walk.old) (answered result) s.old s.new }
{
    let place = walk.next_place();
    if !walk.has_room() {
        return Err(OpenRefusal::BrokenRecord(place.at));
    }
    let n = read_number(s, place).map_err(OpenRefusal::Gone)?;
    walk.pass(n)?;
    Ok(())
}

// Passes all elements.
fn walk_through<S: Storage>(s: &mut S, mut walk: Walk) -> Result<Walk, OpenRefusal<S::Gone>>
    requires in_order { (S.Storage.means s.old).in_order }
    requires sized { walk.size ≡ (S.Storage.means s.old).size }
    requires fresh { walk.passed ≡ 0 }
    ensures in_order { (S.Storage.means s.new).in_order }
    ensures does { OnWalk walk (S.Storage.means s.old) (S.Storage.means s.new) result }
    ensures calls { Asked S.Storage.did (ReadsUpTo 4) (reads_of walk.header.count walk.size result) (answered result) s.old s.new }
{
    for _ in 0..walk.header.count {
        pass_next(s, &mut walk)?;
    }
    Ok(walk)
}

// The head that the visible bytes say. It only reads.
pub fn survey<S: Storage>(s: &mut S) -> Result<Head, OpenRefusal<S::Gone>>
    requires { (S.Storage.means s.old).in_order }
    ensures in_order { (S.Storage.means s.new).in_order }
    ensures does { OnSurvey (S.Storage.means s.old) (S.Storage.means s.new) result }
    ensures calls { Asked S.Storage.did (ReadsUpTo header_width) (1 + reads_of (header_of (S.Storage.means s.old).visible).count (S.Storage.means s.old).size result) (answered result) s.old s.new }
{
    let header = read_header(s).map_err(OpenRefusal::Gone)?;
    let walk = Walk::begin(s.size(), header).ok_or(OpenRefusal::NotAQueue)?;
    let walk = walk_through(s, walk)?;
    Ok(Head {
        size: walk.size,
        header: walk.header,
        used: walk.used,
    })
}
