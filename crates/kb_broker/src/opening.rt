//! The broker at its start: what the settings fix, and nobody connected.

ghost use Rattle.std.specs.Prelude.{◌≡◌, ◌<◌, ℕ, List, [], None, IfOk, IfErr, map, length, get_or};
ghost use Rattle.std.specs.List.{Contains, filter_map};
ghost use Rattle.std.specs.List.Sorted.{IsStrictlySortedBy};
ghost use Rattle.kb_wire.specs.Codec.{array};
ghost use Rattle.kb_api_group.specs.Layouts.{api_version};
ghost use Rattle.kb_settings.specs.Names.{byte_order, in_order, place_of_name};
ghost use Rattle.kb_store.specs.Disk.{Keeps};
ghost use Rattle.kb_isolation_spec.specs.Stranded.{NoneStranded};
ghost use Rattle.kb_tenant_api.specs.Hosted.{names_of, new_tenant};
ghost use Rattle.kb_tenants.specs.Members.{HaveNoGroup};
ghost use Rattle.kb_tenants.specs.Tenants.{numbers_in};
ghost use Rattle.kb_broker.specs.Hosts.{tenants_in, AreHosted};
ghost use Rattle.kb_broker.specs.Nodes.{has_stock_clients};
ghost use Rattle.kb_broker.specs.Opening.{entry_between, versions_of, listed_as, opening, opening_listing, opening_over, opening_setup};
ghost use Rattle.kb_broker.specs.Opening.{tenants_of, login_of, fault_for, BlamesStore, HaveNoGroups};

use crate::broker::Broker;
use crate::engine::Engine;
use crate::nodes::{node_unnamed, nodes_named};
use kb_api_data::config_key;
use kb_api_group::{ApiVersion, group_key};
use kb_connection::{Account, Setup};
use kb_log::{ListLog, PartitionLog, Shelf, ShelfRefused};
use kb_settings::{Settings, User, tenant_names};
use kb_store::{Store, StoreFault};
use kb_tenants::Tenants;
use kb_wire::{Array, api_key};
use std::alloc::{AllocError, Global};
use thiserror::Error;

/// An API: its key, its least and greatest version, and its least and greatest version with stock clients. Where the greatest is below
/// the least, the API is not listed.
type Api = (i16, i16, i16, i16, i16);

/// The APIs that are listed, by rising key (Kafka protocol guide, "Api Keys").
const APIS: [Api; 22] = [
    (api_key::PRODUCE, 3, 3, 3, 6),
    (api_key::FETCH, 4, 5, 4, 9),
    (api_key::LIST_OFFSETS, 1, 1, 1, 4),
    (api_key::METADATA, 1, 1, 0, 7),
    (api_key::OFFSET_COMMIT, 2, 2, 1, 6),
    (api_key::OFFSET_FETCH, 1, 1, 1, 5),
    (api_key::FIND_COORDINATOR, 0, 0, 0, 2),
    (api_key::JOIN_GROUP, 1, 1, 1, 3),
    (api_key::HEARTBEAT, 0, 0, 0, 2),
    (api_key::LEAVE_GROUP, 0, 0, 0, 2),
    (api_key::SYNC_GROUP, 0, 0, 0, 2),
    (group_key::DESCRIBE_GROUPS, 0, -1, 0, 2),
    (group_key::LIST_GROUPS, 0, -1, 0, 2),
    (api_key::SASL_HANDSHAKE, 1, 1, 0, 1),
    (api_key::API_VERSIONS, 0, 0, 0, 2),
    (api_key::CREATE_TOPICS, 0, 0, 0, 3),
    (api_key::DELETE_TOPICS, 0, 0, 0, 3),
    (api_key::DELETE_RECORDS, 0, 0, 0, 1),
    (api_key::INIT_PRODUCER_ID, 0, 0, 0, 1),
    (config_key::DESCRIBE_CONFIGS, 0, -1, 0, 2),
    (api_key::SASL_AUTHENTICATE, 0, 0, 0, 0),
    (group_key::DELETE_GROUPS, 0, -1, 0, 1),
];

/// Which versions a broker lists, and so which it serves.
#[derive(Clone, Copy, Debug, PartialEq, Eq)]
pub enum Listing {
    /// Each API at one version, but Fetch at 4 and 5.
    Served,
    /// The same, and what stock clients ask for beside: of each API but SaslAuthenticate more versions, and DescribeGroups, ListGroups,
    /// DeleteGroups and DescribeConfigs. Older clients log in by SaslHandshake 0, and librdkafka looks for it in the list before it
    /// logs in by version 1.
    StockClients,
}

impl Listing {
    /// Whether it is for stock clients.
    pub fn has_stock_clients(self) -> bool
        ensures { result ≡ has_stock_clients self }
    {
        match self {
            Listing::Served => false,
            Listing::StockClients => true,
        }
    }

    /// What it lists of an API, if it has a version.
    fn entry(self, api: Api) -> Option<ApiVersion>
        ensures { result ≡ listed_as self api }
    {
        let (api_key, least, greatest, stock_least, stock_greatest) = api;
        match self {
            Listing::Served => entry_between(api_key, least, greatest),
            Listing::StockClients => entry_between(api_key, stock_least, stock_greatest),
        }
    }
}

/// An API from one version to another; `None` where there is none.
fn entry_between(api_key: i16, min_version: i16, max_version: i16) -> Option<ApiVersion>
    ensures { result ≡ entry_between api_key min_version max_version }
{
    if min_version <= max_version {
        Some(ApiVersion {
            api_key,
            min_version,
            max_version,
        })
    } else {
        None
    }
}

/// A broker that has opened on its store.
#[derive(Drop)]
pub struct Opened<S: Store, L: PartitionLog = ListLog> {
    pub broker: Broker<S, L>,
    /// The numbers of the files that are nobody's, by rising number. Files are not read yet, so there are none.
    pub strays: Vec<u64>,
}

/// Why a broker could not open.
#[derive(Clone, Copy, Debug, PartialEq, Eq, Error)]
pub enum OpenFault {
    /// The store refused.
    #[error("store fault")]
    Store,
    /// Memory was refused.
    #[error("out of memory")]
    Memory,
}

/// A broker that could not open. Its store comes back, with its files as they were.
#[derive(Drop)]
pub struct OpenRefused<S: Store> {
    pub fault: OpenFault,
    pub store: S,
}

impl<S: Store> OpenRefused<S> {
    /// Memory was refused beside the store.
    fn for_memory(store: S) -> Self
        ensures { result ≡ record { fault = OpenFault.Memory; store = store } }
    {
        OpenRefused {
            fault: OpenFault::Memory,
            store,
        }
    }

    /// The store refused to list its files.
    fn for_shelf(refused: ShelfRefused<S>) -> Self
        ensures { result ≡ record { fault = fault_for refused.fault; store = refused.store } }
    {
        OpenRefused {
            fault: match refused.fault {
                StoreFault::Device => OpenFault::Store,
                StoreFault::Memory => OpenFault::Memory,
            },
            store: refused.store,
        }
    }
}

impl<S: Store, L: PartitionLog + Drop> Broker<S, L> {
    /// A broker on a store, to which nobody is connected, at moment 0: its users and their tenants are those of the settings,
    /// and no tenant keeps anything. It lists what it serves.
    ///
    /// Opening changes no file. `Store` is answered only where the store's failures grew.
    pub fn open(
        alloc: Global,
        settings: &Settings,
        store: S,
    ) -> Result<Opened<S, L>, OpenRefused<S>>
        ensures state { IfOk result (λ opened. opened.broker.state ≡ opening settings.now) }
        ensures no_groups { IfOk result (λ opened. HaveNoGroup opened.broker.state.tenants) }
        ensures strays { IfOk result (λ opened. opened.strays.items ≡ []) }
        // Which files are of no log is not known yet.
        ensures unknown { IfOk result (λ opened. opened.broker.strays ≡ None) }
        ensures unchanged { IfOk result (λ opened. Keeps (S.disk store) (S.disk opened.broker.store)) }
        ensures unchanged_err { IfErr result (λ refused. Keeps (S.disk store) (S.disk refused.store)) }
        ensures cause { IfErr result (λ refused. BlamesStore (S.disk store) refused.fault (S.disk refused.store)) }
    {
        Broker::open_listing(alloc, settings, Listing::Served, store)
    }

    /// The same broker, which lists these versions.
    pub fn open_listing(
        alloc: Global,
        settings: &Settings,
        listing: Listing,
        store: S,
    ) -> Result<Opened<S, L>, OpenRefused<S>>
        ensures state { IfOk result (λ opened. opened.broker.state ≡ opening_listing listing settings.now) }
        ensures no_groups { IfOk result (λ opened. HaveNoGroup opened.broker.state.tenants) }
        ensures strays { IfOk result (λ opened. opened.strays.items ≡ []) }
        // Which files are of no log is not known yet.
        ensures unknown { IfOk result (λ opened. opened.broker.strays ≡ None) }
        ensures unchanged { IfOk result (λ opened. Keeps (S.disk store) (S.disk opened.broker.store)) }
        ensures unchanged_err { IfErr result (λ refused. Keeps (S.disk store) (S.disk refused.store)) }
        ensures cause { IfErr result (λ refused. BlamesStore (S.disk store) refused.fault (S.disk refused.store)) }
    {
        let Ok(names) = tenant_names(alloc, &settings.users) else {
            return Err(OpenRefused::for_memory(store));
        };
        let Ok(setup) = new_setup(alloc, settings, listing, &names) else {
            return Err(OpenRefused::for_memory(store));
        };
        let shelf = match Shelf::new(alloc, store, settings.cache_batches) {
            Ok(shelf) => shelf,
            Err(refused) => return Err(OpenRefused::for_shelf(refused)),
        };
        let tenants = new_tenants(alloc, settings, &names, shelf)?;
        let engine = Engine::new(alloc, setup, tenants);
        Ok(Opened {
            broker: Broker::new(engine),
            strays: Vec::new(alloc),
        })
    }

    /// A broker of tenants that are there, to which nobody is connected, at moment 0. Its users are those of the settings, whose tenants
    /// they are; it lists these versions.
    ///
    /// An `Err` is want of memory: the store comes back, with its files as they were.
    pub fn over(
        alloc: Global,
        settings: &Settings,
        listing: Listing,
        tenants: Tenants<L, S>,
    ) -> Result<Broker<S, L>, OpenRefused<S>>
        requires hosted { AreHosted L.log S.disk tenants }
        requires names { names_of (tenants_in L.log S.disk tenants) ≡ tenants_of settings.now.users.items }
        ensures state { IfOk result (λ broker. broker.state ≡ opening_over listing settings.now (tenants_in L.log S.disk tenants)) }
        ensures store { IfOk result (λ broker. broker.store ≡ tenants.shelf.store) }
        ensures strays { IfOk result (λ broker. broker.strays ≡ numbers_in tenants.strays) }
        // Where no tenant has groups no member waits.
        ensures held { IfOk result (λ broker. HaveNoGroups (tenants_in L.log S.disk tenants) → NoneStranded broker.state) }
        ensures refused { IfErr result (λ refused. refused ≡ record { fault = OpenFault.Memory; store = tenants.shelf.store }) }
    {
        let Ok(setup) = setup_of(alloc, settings, listing) else {
            return Err(OpenRefused::for_memory(tenants.into_shelf().into_store()));
        };
        let engine = Engine::new(alloc, setup, tenants);
        Ok(Broker::new(engine))
    }
}

/// What is fixed for a broker of those settings.
fn setup_of(alloc: Global, settings: &Settings, listing: Listing) -> Result<Setup, AllocError>
    ensures { IfOk result (λ setup. setup ≡ opening_setup listing settings.now) }
{
    let names = tenant_names(alloc, &settings.users)?;
    new_setup(alloc, settings, listing, &names)
}

/// What is fixed for a broker, where the names are those of its tenants.
fn new_setup(
    alloc: Global,
    settings: &Settings,
    listing: Listing,
    names: &[&str],
) -> Result<Setup, AllocError>
    requires { map (λ name. name.now) names.now ≡ tenants_of settings.now.users.items }
    ensures { IfOk result (λ setup. setup ≡ opening_setup listing settings.now) }
{
    let logins = logins_of(alloc, &settings.users, names)?;
    let versions = listed_versions(alloc, listing)?;
    let nodes = nodes_named(alloc, settings, listing, names)?;
    let node = node_unnamed(alloc, settings, listing)?;
    let request_bytes = settings.requests.request_bytes;
    Ok(Setup::new(versions, logins, nodes, node, request_bytes))
}

/// The versions that are listed. They fit a reply.
fn listed_versions(alloc: Global, listing: Listing) -> Result<Array<ApiVersion>, AllocError>
    ensures is { IfOk result (λ versions. versions ≡ versions_of listing) }
    ensures fits { IfOk result (λ versions. (array api_version).Fits versions) }
{
    let versions = entries(alloc, listing, &APIS)?;
    Ok(Array::from_vec(versions))
}

/// What it lists of each API.
fn entries(alloc: Global, listing: Listing, apis: &[Api]) -> Result<Vec<ApiVersion>, AllocError>
    ensures { IfOk result (λ versions. versions.items ≡ filter_map (listed_as listing) apis.now) }
{
    apis.iter()
        .filter_map(|api| listing.entry(*api))
        .collect(alloc)
}

/// The users' logins, where the names are those of their tenants.
fn logins_of<'a>(
    alloc: Global,
    users: &'a [User],
    names: &[&'a str],
) -> Result<Vec<Account>, AllocError>
    requires { map (λ name. name.now) names.now ≡ tenants_of users.now }
    ensures { IfOk result (λ logins. logins.items ≡ map (login_of (tenants_of users.now)) users.now) }
{
    let mut logins = Vec::with_capacity(alloc, users.len())?;
    for user in users {
        let name = user.name.as_bytes().to_vec(alloc)?;
        let password = user.password.as_bytes().to_vec(alloc)?;
        let tenant = place_of(names, user.tenant.as_str());
        logins.push(Account::new(name, password, tenant))?;
    }
    Ok(logins)
}

/// The place of a name among rising names, by halving.
fn place_of<'a>(names: &[&'a str], name: &'a str) -> usize
    requires rise { IsStrictlySortedBy byte_order (map (λ n. n.now) names.now) }
    requires named { Contains (map (λ n. n.now) names.now) name.now }
    ensures { result ≡ place_of_name name.now (map (λ n. n.now) names.now) }
{
    names.binary_search(&name).unwrap_or_else(|place| place)
}

/// A tenant for each name, on a shelf, which comes back as a store where memory is refused.
fn new_tenants<L: PartitionLog + Drop, S: Store>(
    alloc: Global,
    settings: &Settings,
    names: &[&str],
    shelf: Shelf<S>,
) -> Result<Tenants<L, S>, OpenRefused<S>>
    ensures hosted { IfOk result (λ tenants. AreHosted L.log S.disk tenants) }
    ensures new { IfOk result (λ tenants. tenants_in L.log S.disk tenants ≡ map (λ name. new_tenant name.now) names.now) }
    ensures store { IfOk result (λ tenants. tenants.shelf.store ≡ shelf.store) }
    ensures strays { IfOk result (λ tenants. tenants.strays ≡ None) }
    ensures err { IfErr result (λ refused. refused ≡ record { fault = OpenFault.Memory; store = shelf.store }) }
{
    let mut tenants = Tenants::new(alloc, shelf);
    for name in names {
        let added = tenants.add(alloc, name, u64::from(settings.segment_bytes));
        if added.is_err() {
            return Err(OpenRefused::for_memory(tenants.into_shelf().into_store()));
        }
    }
    Ok(tenants)
}

/// Names in order rise strictly, are the same names, and are the only list that does both.
pub fn names_in_order()
    ensures rise { (names : List (List ℕ)) → IsStrictlySortedBy byte_order (in_order names) }
    ensures stay { (names : List (List ℕ)) (name : List ℕ) → Contains names name → Contains (in_order names) name }
    ensures no_other { (names : List (List ℕ)) (name : List ℕ) → Contains (in_order names) name → Contains names name }
    ensures only { (names list : List (List ℕ)) → IsStrictlySortedBy byte_order list
        → ((name : List ℕ) → Contains list name → Contains names name) → ((name : List ℕ) → Contains names name → Contains list name)
        → list ≡ in_order names }
{}

/// At the place of a name among names in order stands the name.
pub fn places_of_names()
    ensures within { (names : List (List ℕ)) (name : List ℕ) → Contains names name
        → place_of_name name (in_order names) < length (in_order names) }
    ensures there { (names : List (List ℕ)) (name d : List ℕ) → Contains names name
        → get_or (in_order names) (place_of_name name (in_order names)) d ≡ name }
{}
