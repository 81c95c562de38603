//! Laws about brokers that open with files, each as the contract of a function with an empty body.

ghost use Rattle.std.specs.Prelude.{◌≡◌, ℕ, List, Some, map, slice_get};
ghost use Rattle.std.specs.FinMap.{keys};
ghost use Rattle.kb_store.specs.Disk.{Files};
ghost use Rattle.kb_settings.specs.declared.settings.Settings.{Settings};
ghost use Rattle.kb_tenant_api.specs.Hosted.{TenantState, kept_of};
ghost use Rattle.kb_isolation_spec.specs.Alone.{HasToItself};
ghost use Rattle.kb_isolation_spec.specs.Broker.{BrokerState, IsCalmFor};
ghost use Rattle.kb_isolation_spec.specs.Isolation.{IsIsolated, own_events, own_sent};
ghost use Rattle.kb_isolation_spec.specs.Machine.{Happening};
ghost use Rattle.kb_broker.specs.declared.opening.Listing.{Listing};
ghost use Rattle.kb_broker.specs.declared.run.Event.{Event};
ghost use Rattle.kb_broker.specs.declared.run.Written.{Written};
ghost use Rattle.kb_broker.specs.Members.{broker_numbered_from};
ghost use Rattle.kb_broker.specs.Opening.{tenants_of};
ghost use Rattle.kb_broker.specs.Runs.{happenings, sent_of, connections_of};
ghost use Rattle.kb_restart.specs.Alone.{AreFilesAlone, HaveSameFilesOf, OpensAlike, StartsFrom};
ghost use Rattle.kb_restart.specs.Restart.{AreReopened};

/// A tenant on a broker that it shares gets what it gets on one of its own that opened with its files alone.
///
/// The shared broker opens with the files of many tenants. The tenant's own one opens with those of them whose headers name the tenant,
/// under the same numbers, with the same bytes: so both have the same files of it (`alone`), which come to the same (`files`). A copy of
/// them under other numbers comes to the same, too: so says `opens` of `copy_tenant` (`kb_move`).
///
/// Both brokers have the same settings. Then the tenant begins with the same on both: its topics with their settings, starts and committed
/// offsets, how many producer ids were given out, and the log of each partition (`found`). So its own broker is one that it has to itself
/// (`start`), also where both number their members from the same number on (`numbered`). That is the premise of `alone` of `run_both`.
///
/// `written`: events of everybody come to the first, and to the second those of the tenant's connections and the moments. Then all that
/// the second writes is what the first writes to the tenant's connections, and the second shuts those that the first shuts of them. On
/// neither may anything be refused to the tenant or to a connection that is not bound.
///
/// What is said of the brokers and their runs is what `run_from_files` ensures, where the stores are honest to the end (`ran`).
pub fn opened_alone_from_files_is_the_same()
    ensures alone { (name : List ℕ) (files own_files : Files) → AreFilesAlone name files own_files
        → HaveSameFilesOf name files own_files }
    ensures files { (name : List ℕ) (files own_files : Files) → HaveSameFilesOf name files own_files → OpensAlike name files own_files }
    ensures found { (names : List (List ℕ)) (t : ℕ) (name : List ℕ) (files own_files : Files) (ts us : List TenantState)
        → slice_get names t ≡ Some name → OpensAlike name files own_files
        → AreReopened files (keys files) names ts → AreReopened own_files (keys own_files) names us → kept_of us t ≡ kept_of ts t }
    ensures start { (listing : Listing) (settings : Settings) (t : ℕ) (name : List ℕ) (files own_files : Files) (shared own : BrokerState)
        (es : List Happening) → slice_get (tenants_of settings.users.items) t ≡ Some name → OpensAlike name files own_files
        → StartsFrom listing settings files shared → StartsFrom listing settings own_files own → HasToItself t es shared own }
    ensures numbered { (first : ℕ) (listing : Listing) (settings : Settings) (t : ℕ) (name : List ℕ) (files own_files : Files)
        (shared own : BrokerState) (es : List Happening) → slice_get (tenants_of settings.users.items) t ≡ Some name
        → OpensAlike name files own_files → StartsFrom listing settings files shared → StartsFrom listing settings own_files own
        → HasToItself t es (broker_numbered_from first shared) (broker_numbered_from first own) }
    ensures written { (listing : Listing) (settings : Settings) (t : ℕ) (name : List ℕ) (files own_files : Files)
        (events fewer : List Event) (shared after own own_after : BrokerState) (written own_written : List Written)
        → slice_get (tenants_of settings.users.items) t ≡ Some name → OpensAlike name files own_files
        → StartsFrom listing settings files shared → StartsFrom listing settings own_files own
        → happenings fewer ≡ own_events t (happenings events) shared
        → IsIsolated (happenings events) shared after (map sent_of written)
        → IsIsolated (happenings fewer) own own_after (map sent_of own_written)
        → map (λ (w : Written). w.conn) own_written ≡ connections_of (happenings fewer) own
        → IsCalmFor t shared after → IsCalmFor t own own_after
        → map sent_of own_written ≡ own_sent t (happenings events) shared (map sent_of written) }
{}
