//! Laws of a mirror's sessions, each as the contract of a function that does nothing.
ghost use Rattle.std.specs.Prelude.{◌≡◌, ◌⊎◌, ◌≤◌, ℕ, ℤ, List, length, Option};
ghost use Rattle.std.specs.List.{All};
ghost use Rattle.copy_forms.specs.Trails.{IsSoundTrail, Trail};
ghost use Rattle.lei_mirror.specs.Following.{FollowsTrail};
ghost use Rattle.lei_mirror.specs.Mirrors.{MirrorState};
ghost use Rattle.line_reading.specs.declared.framing.NoEnd.{NoEnd};
ghost use Rattle.query_reading.specs.declared.reply.QueryReply.{QueryReply};
ghost use Rattle.request_loop.specs.Serving.{Progress, Serves};
ghost use Rattle.request_loop.specs.Sessions.{Session};
ghost use Rattle.request_loop.specs.declared.frames.Ended.{Ended};
ghost use Rattle.mirror_queries.specs.Answering.{LacksMemory, MirrorAsked, MirrorStep};
ghost use Rattle.mirror_queries.specs.Following.{ArePacketsOfTrail, IsAskedOfTrail, TrailStep};
ghost use Rattle.mirror_queries.specs.Serving.{mirror_rules};
ghost use Rattle.mirror_queries.specs.Sizes.{HasShortPacket};

/// For a mirror and a query there is one reply and one next mirror, unless memory runs out. Nothing is said about
/// packets of 2^64 bytes or more.
pub fn queries_have_one_reply()
    ensures { (state new next : MirrorState) (asked : MirrorAsked) (moments later : List ℤ)
        (reply other : QueryReply)
        → HasShortPacket asked → MirrorStep state asked moments reply new
        → MirrorStep state asked later other next
        → LacksMemory state reply new ⊎ LacksMemory state other next ⊎ ((reply ≡ other) × (new ≡ next)) }
{}

/// During a session the number of the publication that is shown never falls.
pub fn publications_never_fall()
    ensures { (old : MirrorState) (asks : List MirrorAsked) (moments : List ℤ) (replies : List QueryReply)
        (new : MirrorState) → Session MirrorStep old asks moments replies new
        → old.tables.publication ≤ new.tables.publication }
{}

/// Suppose a session starts with a mirror that follows a sound trail of at most 1,000,000 publications, and what is
/// sent as packets is of that trail, or no packet at all. Then the mirror follows the trail after each query. Each file
/// that is shown is the copy of the publication that is shown at that time.
pub fn sessions_follow_trails()
    ensures { (trail : Trail) → IsSoundTrail trail → length trail ≤ 1_000_000
        → (old : MirrorState) (asks : List MirrorAsked) (moments : List ℤ) (replies : List QueryReply)
        (new : MirrorState) → FollowsTrail trail old → All (IsAskedOfTrail trail) asks
        → Session MirrorStep old asks moments replies new
        → FollowsTrail trail new × Session (TrailStep trail) old asks moments replies new }
{}

/// The same for a mirror that is served, if the bytes that it took from the wire send such packets alone.
pub fn served_mirrors_follow_trails()
    ensures { (trail : Trail) → IsSoundTrail trail → length trail ≤ 1_000_000
        → (most : ℕ) (start now : Progress MirrorState) (left left_now : Option (List ℕ))
        (ended : Ended NoEnd)
        → FollowsTrail trail start.who
        → (serves : Serves MirrorStep mirror_rules most start left now left_now ended)
        → ArePacketsOfTrail trail serves.bytes
        → FollowsTrail trail now.who × Serves
        (TrailStep trail) mirror_rules most start left now left_now ended }
{}
