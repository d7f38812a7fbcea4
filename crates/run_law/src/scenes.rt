//! A step of the scene is the definition's step.

ghost use Rattle.std.specs.Prelude.{◌≡◌, ◌<◌, ℕ, List, ◌∷◌, ◌++◌, [], Option, Some, Ok, false, length};
ghost use Rattle.wire_bcs.specs.Place.{IsBytes};
ghost use Rattle.chain_types.specs.declared.transactions.SignedTx.{SignedTx};
ghost use Rattle.chain_types.specs.Transactions as transactions;
ghost use Rattle.chain_messages.specs.declared.messages.Certificate.{Certificate};
ghost use Rattle.chain_messages.specs.declared.messages.Entry.{Entry};
ghost use Rattle.chain_messages.specs.Messages as messages;
ghost use Rattle.outside.specs.Lists.{Journals, journal_of};
ghost use Rattle.protocol_spec.specs.Member.Member.{Member};
ghost use Rattle.protocol_spec.specs.Member.Calls.{holds, sees, votes};
ghost use Rattle.schedule_text.specs.declared.words.Setup.{Setup};
ghost use Rattle.schedule_text.specs.declared.words.Schedule.{Schedule};
ghost use Rattle.schedule_text.specs.Schedule.{schedule_of};
ghost use Rattle.schedule_text.specs.declared.words.Event.{Event};
ghost use Rattle.schedule_text.specs.declared.words.Event.TheVariants as event;
ghost use Rattle.report_text.specs.declared.lines.Line.TheVariants as line;
ghost use Rattle.report_text.specs.declared.lines.RestartText.TheVariants as restart_text;
ghost use Rattle.protocol_spec.specs.Chain.Words.{Each};
ghost use Rattle.world_spec.specs.Setting.{Setting, Trust, setting_of};
ghost use Rattle.world_spec.specs.World.{World, new_world, reseated};
ghost use Rattle.world_spec.specs.Step.{happens, happens_over};
ghost use Rattle.world_spec.specs.Report.{lines_of, lines_over};
ghost use Rattle.world_spec.specs.Run.{world_after};
ghost use Rattle.world_spec.specs.Assumptions.{all_of, calls_of};
ghost use Rattle.run_law.specs.HonestTexts.{keyed_setting};
ghost use Rattle.world_spec.specs.Starts.{started};
ghost use Rattle.world_spec.specs.Posts.{by_posts, started_at};
ghost use Rattle.world_spec.specs.Scene.{Scene, new_scene, rules_in};
ghost use Rattle.world_spec.specs.SceneSteps.{AddsLine, MayAddLine, lines_in, records_left, steps_to, work_of};
ghost use Rattle.world_spec.specs.SceneWorlds.{AreKeepable, HasRoom, ReadsFit, Restarts, Shows, Tells, TellsFront, WorkReadsFit, is_restart, journal_in, post_of};

/// The scene of the set-up shows the definition's first world, and each step of a scene shows the world after
/// the line, with the definition's lines.
pub fn steps_of_a_world()
    ensures first { (trust : Trust) (lines : List Setup) → Shows trust (setting_of trust lines) (new_world (setting_of trust lines)) (new_scene (setting_of trust lines) lines) }
    ensures steps { (trust : Trust) (s : Setting) (w : World) (sc : Scene) (e : Event) → Shows trust s w sc → is_restart e ≡ false → Shows trust s (happens s w e) (steps_to trust sc e) }
    ensures lines { (trust : Trust) (s : Setting) (w : World) (sc : Scene) (e : Event) → Shows trust s w sc → is_restart e ≡ false → lines_of s w e ≡ lines_in trust sc e }
    ensures restart { (trust : Trust) (s : Setting) (w : World) (sc : Scene) (m : ℕ) (state : Member) → Shows trust s w sc → Restarts s w → m < length w.seats → started s.rules s.opening (journal_in w m) ≡ Ok state → Shows trust s (happens s w (event.Restart m)) (record sc { posts = started_at sc.terms sc.posts m state }) }
    ensures restarted { (s : Setting) (w : World) (m : ℕ) → lines_of s w (event.Restart m) ≡ line.Restart m (restart_text.Records (length (journal_in w m))) ∷ [] }
    ensures posts { (trust : Trust) (s : Setting) (w : World) (sc : Scene) → Shows trust s w sc → length sc.posts ≡ length w.seats }
{}

/// Each line but a restart changes what code keeps of the members just as it changes their records, and gives the same
/// lines of the report.
pub fn steps_of_posts()
    ensures steps { (s : Setting) (w : World) (e : Event) → is_restart e ≡ false → reseated (post_of s) (happens s w e) ≡ happens_over (by_posts s.seal s.rules) s (reseated (post_of s) w) e }
    ensures lines { (s : Setting) (w : World) (e : Event) → is_restart e ≡ false → lines_of s w e ≡ lines_over (by_posts s.seal s.rules) s (reseated (post_of s) w) e }
{}

/// Observable records follow the world: what a line leaves in the scene is what the definition appends, and if the line
/// was cut, a prefix of that. Each member starts from its records, if what is read from the bytes of calls fits its
/// type and the entries before it have encodings that can be kept.
pub fn records_of_a_world()
    ensures first { (s : Setting) → Restarts s (new_world s) }
    ensures starts { (trust : Trust) (s : Setting) (w : World) (sc : Scene) (e : Event) → Shows trust s w sc → WorkReadsFit (work_of sc e) → AreKeepable w.sequences → Restarts s w → Restarts s (happens s w e) }
    ensures opens { (s : Setting) (lists : Journals) → ((m : ℕ) → journal_of lists m ≡ []) → Tells (Some lists) (new_world s) }
    ensures told { (trust : Trust) (s : Setting) (w : World) (sc : Scene) (e : Event) (before now : Option Journals) → Shows trust s w sc → HasRoom before w → Tells before w → AddsLine (records_left (rules_in trust.accepts sc) sc (work_of sc e)) before now → Tells now (happens s w e) }
    ensures cut { (trust : Trust) (s : Setting) (w : World) (sc : Scene) (e : Event) (before now : Option Journals) → Shows trust s w sc → HasRoom before w → Tells before w → MayAddLine (records_left (rules_in trust.accepts sc) sc (work_of sc e)) before now → TellsFront now (happens s w e) }
    ensures fronts { (told : Option Journals) (w : World) → Tells told w → TellsFront told w }
    ensures ahead { (s : Setting) (w : World) (e : Event) (told : Option Journals) → TellsFront told w → TellsFront told (happens s w e) }
{}

/// What is read from bytes, or from the encoding of a value that fits, fits its type.
pub fn bytes_of_calls()
    ensures votes { (bytes : List ℕ) → IsBytes bytes → ReadsFit (votes bytes) }
    ensures holds { (bytes : List ℕ) → IsBytes bytes → ReadsFit (holds bytes) }
    ensures signed { (x : SignedTx) → transactions.signed.fits x → ReadsFit (votes (transactions.signed.spell x)) }
    ensures certificates { (c : Certificate) → messages.certificate.fits c → ReadsFit (holds (messages.certificate.spell c)) }
    ensures entries { (number : ℕ) (e : Entry) → messages.entry.fits e → ReadsFit (sees number (messages.entry.spell e)) }
{}

/// In every run whose entries can be kept, each member starts from its records if what is read from the bytes of its
/// calls fits its type. So it does in each run that a text says, after each prefix of its lines whose entries can be
/// kept.
pub fn restarts_of_a_run()
    ensures run { (s : Setting) (events : List Event) → Each ReadsFit (all_of calls_of s events (new_world s)) → AreKeepable (world_after s events).sequences → Restarts s (world_after s events) }
    ensures read { (text : List ℕ) (t : Schedule) → schedule_of text ≡ Ok t → (secret : List ℕ) → (front rest : List Event) → t.events ≡ front ++ rest → AreKeepable (world_after (keyed_setting secret t) front).sequences → Restarts (keyed_setting secret t) (world_after (keyed_setting secret t) front) }
{}
