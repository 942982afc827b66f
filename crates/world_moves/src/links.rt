//! The links of a world.

ghost use Rattle.std.specs.Prelude.{◌≡◌, ◌<◌, ◌≤◌, ◌^◌, ◌++◌, ◌∷◌, [], length, IfOk, slice_get};
ghost use Rattle.world_moves.specs.Choosing.{chosen_in, pushed_if};
ghost use Rattle.world_moves.specs.Links.{same_end, dialler_of, acceptor_of, kind_of, same_kind, is_own, is_handed_kind, is_of, is_dialled_by, is_accepted_by, links_of, handed_links, hearer_on, other_hearer, forgotten_by, forget_end};

use crate::choosing::chosen_in;
use std::alloc::Global;
use std::marker::Model;
use wire_base::{List, NoMemory};

/// An end of a world: which controller, member, client or station of the plan, counted from 0.
#[derive(Clone, Copy, Debug, PartialEq, Eq)]
pub enum EndId {
    Controller(usize),
    Member(usize),
    Client(usize),
    Station(usize),
}

/// Whether both are the same end.
pub(crate) fn same_end(one: EndId, other: EndId) -> bool
    ensures { result ≡ same_end one other }
{
    match (one, other) {
        (EndId::Controller(one), EndId::Controller(other)) => one == other,
        (EndId::Member(one), EndId::Member(other)) => one == other,
        (EndId::Client(one), EndId::Client(other)) => one == other,
        (EndId::Station(one), EndId::Station(other)) => one == other,
        _ => false,
    }
}

/// The kind of a link, which is also that of a unit sent on it.
#[derive(Clone, Copy, Debug, PartialEq, Eq)]
pub enum LinkKind {
    /// From a client to a member.
    ToMember,
    /// From a member to a controller.
    ToController,
    /// From a controller to another one.
    Between,
    /// From a station to a controller.
    FromStation,
    /// From a stranger to a controller or member.
    Stranger,
}

/// Whether both are the same kind.
fn same_kind(one: LinkKind, other: LinkKind) -> bool
    ensures { result ≡ same_kind one other }
{
    match (one, other) {
        (LinkKind::ToMember, LinkKind::ToMember) => true,
        (LinkKind::ToController, LinkKind::ToController) => true,
        (LinkKind::Between, LinkKind::Between) => true,
        (LinkKind::FromStation, LinkKind::FromStation) => true,
        (LinkKind::Stranger, LinkKind::Stranger) => true,
        _ => false,
    }
}

impl LinkKind {
    /// Whether a unit that is sent on a link of the kind goes into the bag.
    pub(crate) fn is_own(self) -> bool
        ensures { result ≡ is_own self }
    {
        !matches!(self, LinkKind::Stranger)
    }

    /// Whether bytes from outside come on a link of the kind.
    fn is_handed(self) -> bool
        ensures { result ≡ is_handed_kind self }
    {
        matches!(self, LinkKind::ToMember | LinkKind::Stranger)
    }
}

/// Whom a link is between: the end that dialled it, and the end that accepted it.
#[derive(Clone, Copy, Debug, PartialEq, Eq)]
pub enum Route {
    ToMember { client: usize, member: usize },
    ToController { member: usize, controller: usize },
    Between { from: usize, to: usize },
    FromStation { station: usize, controller: usize },
    Stranger(EndId),
}

impl Route {
    /// The kind.
    pub(crate) fn kind(self) -> LinkKind
        ensures { result ≡ kind_of self }
    {
        match self {
            Route::ToMember { .. } => LinkKind::ToMember,
            Route::ToController { .. } => LinkKind::ToController,
            Route::Between { .. } => LinkKind::Between,
            Route::FromStation { .. } => LinkKind::FromStation,
            Route::Stranger(_) => LinkKind::Stranger,
        }
    }

    /// Whether a link of it is of that kind.
    fn is_of(self, kind: LinkKind) -> bool
        ensures { result ≡ is_of kind self }
    {
        same_kind(self.kind(), kind)
    }

    /// The end that dialled, where it isn't a stranger.
    pub(crate) fn dialler(self) -> Option<EndId>
        ensures { result ≡ dialler_of self }
    {
        match self {
            Route::ToMember { client, .. } => Some(EndId::Client(client)),
            Route::ToController { member, .. } => Some(EndId::Member(member)),
            Route::Between { from, .. } => Some(EndId::Controller(from)),
            Route::FromStation { station, .. } => Some(EndId::Station(station)),
            Route::Stranger(_) => None,
        }
    }

    /// Whether that end dialled.
    fn is_dialled_by(self, end: EndId) -> bool
        ensures { result ≡ is_dialled_by end self }
    {
        match self.dialler() {
            Some(other) => same_end(other, end),
            None => false,
        }
    }

    /// Whether that end accepted.
    pub(crate) fn is_accepted_by(self, end: EndId) -> bool
        ensures { result ≡ is_accepted_by end self }
    {
        same_end(self.acceptor(), end)
    }

    /// The end that accepted.
    pub(crate) fn acceptor(self) -> EndId
        ensures { result ≡ acceptor_of self }
    {
        match self {
            Route::ToMember { member, .. } => EndId::Member(member),
            Route::ToController { controller, .. } => EndId::Controller(controller),
            Route::Between { to, .. } => EndId::Controller(to),
            Route::FromStation { controller, .. } => EndId::Controller(controller),
            Route::Stranger(to) => to,
        }
    }
}

/// A link that is open at a side.
#[derive(Clone, Copy, Debug, PartialEq, Eq)]
pub struct OpenLink {
    pub route: Route,
    /// Whether it is open at the side of the end that dialled it, and at that of the end that accepted it.
    pub dialler: bool,
    pub acceptor: bool,
}

impl OpenLink {
    /// The end that hears what goes on the link, `back` to the end that dialled it: none where that side isn't open.
    pub(crate) fn hearer(self, back: bool) -> Option<EndId>
        ensures { result ≡ hearer_on back self }
    {
        if back {
            if self.dialler {
                self.route.dialler()
            } else {
                None
            }
        } else if self.acceptor {
            Some(self.route.acceptor())
        } else {
            None
        }
    }

    /// The end that is at the other side than this one: none where that side isn't open.
    pub(crate) fn other_hearer(self, end: EndId) -> Option<EndId>
        ensures { result ≡ other_hearer end self }
    {
        self.hearer(self.route.is_accepted_by(end))
    }

    /// The link without the sides of that end.
    fn forgotten_by(self, end: EndId) -> OpenLink
        ensures { result ≡ forgotten_by end self }
    {
        OpenLink {
            route: self.route,
            dialler: self.dialler && !self.route.is_dialled_by(end),
            acceptor: self.acceptor && !self.route.is_accepted_by(end),
        }
    }
}

/// Links that are open at a side, by their numbers.
pub(crate) type OpenLinks = List<(u32, OpenLink)>;

/// The links without the sides of that end.
pub(crate) fn forget_end(
    alloc: Global,
    end: EndId,
    links: &OpenLinks,
) -> Result<OpenLinks, NoMemory>
    ensures value { IfOk result (λ rest. rest ≡ forget_end end links.now) }
    ensures fewer { IfOk result (λ rest. length rest ≤ length links.now) }
{
    let mut rest = OpenLinks::new(alloc);
    for (number, link) in links.items() {
        let link = link.forgotten_by(end);
        if link.dialler || link.acceptor {
            rest.push((*number, link))?;
        }
    }
    Ok(rest)
}

/// All links that were made, seen as the list of whom each is between. Beside them stand the numbers of those of each
/// kind, and of those on which bytes may be handed in, so that none of them is sought.
#[derive(Drop)]
pub struct WorldLinks {
    routes: Vec<Route>,
    to_members: Vec<u32>,
    to_controllers: Vec<u32>,
    between: Vec<u32>,
    from_stations: Vec<u32>,
    strangers: Vec<u32>,
    handed: Vec<u32>,
}

impl Model for WorldLinks {
    ghost use Rattle.std.specs.Prelude.{List as list};
    ghost use Rattle.world_moves.specs.declared.links.Route.{Route as AnyRoute};
    ghost use Rattle.world_moves.specs.LinkIndexes.{AreIndexes};

    ghost Value = { list AnyRoute };

    ghost view = { λ l. l.routes.items };

    ghost invariant = { λ l. AreIndexes l.routes.items l.to_members.items l.to_controllers.items
        l.between.items l.from_stations.items l.strangers.items l.handed.items };
}

impl WorldLinks {
    /// No links.
    pub(crate) fn new(alloc: Global) -> WorldLinks
        ensures { result ≡ [] }
    {
        WorldLinks {
            routes: Vec::new(alloc),
            to_members: Vec::new(alloc),
            to_controllers: Vec::new(alloc),
            between: Vec::new(alloc),
            from_stations: Vec::new(alloc),
            strangers: Vec::new(alloc),
            handed: Vec::new(alloc),
        }
    }

    /// How many there are: the number of the next one.
    pub(crate) fn len(&self) -> usize
        ensures { result ≡ length self.now }
    {
        self.routes.len()
    }

    /// Whom the link of that number is between. None exactly where there is none.
    pub(crate) fn get(&self, number: u32) -> Option<Route>
        ensures { result ≡ slice_get self.now number }
    {
        self.routes.get(number as usize).copied()
    }

    /// The links and one more. Want of memory drops them.
    #[tactic(auto, using(crate::proofs::PlaceLaws::places_push))]
    pub(crate) fn add(self, route: Route) -> Result<WorldLinks, NoMemory>
        requires { length self < 2 ^ 32 }
        ensures { IfOk result (λ links. links ≡ self ++ route ∷ []) }
    {
        let WorldLinks {
            mut routes,
            mut to_members,
            mut to_controllers,
            mut between,
            mut from_stations,
            mut strangers,
            mut handed,
        } = self;
        let number = routes.len() as u32;
        to_members = push_if(to_members, route.is_of(LinkKind::ToMember), number)?;
        to_controllers = push_if(to_controllers, route.is_of(LinkKind::ToController), number)?;
        between = push_if(between, route.is_of(LinkKind::Between), number)?;
        from_stations = push_if(from_stations, route.is_of(LinkKind::FromStation), number)?;
        strangers = push_if(strangers, route.is_of(LinkKind::Stranger), number)?;
        handed = push_if(handed, route.kind().is_handed(), number)?;
        routes.push(route)?;
        Ok(WorldLinks {
            routes,
            to_members,
            to_controllers,
            between,
            from_stations,
            strangers,
            handed,
        })
    }

    /// The link that the number chooses among those of the kind. None exactly where there are none.
    pub(crate) fn chosen_of(&self, kind: LinkKind, number: u32) -> Option<u32>
        ensures { result ≡ chosen_in number (links_of kind self.now) }
    {
        match kind {
            LinkKind::ToMember => chosen_in(number, self.to_members.as_slice()),
            LinkKind::ToController => chosen_in(number, self.to_controllers.as_slice()),
            LinkKind::Between => chosen_in(number, self.between.as_slice()),
            LinkKind::FromStation => chosen_in(number, self.from_stations.as_slice()),
            LinkKind::Stranger => chosen_in(number, self.strangers.as_slice()),
        }
    }

    /// The link that the number chooses among those of clients and strangers. None exactly where there are none.
    pub(crate) fn chosen_handed(&self, number: u32) -> Option<u32>
        ensures { result ≡ chosen_in number (handed_links self.now) }
    {
        chosen_in(number, self.handed.as_slice())
    }
}

/// The numbers and this one, if it is wanted. Want of memory drops them.
fn push_if(numbers: Vec<u32>, wanted: bool, number: u32) -> Result<Vec<u32>, NoMemory>
    ensures { IfOk result (λ after. after.items ≡ pushed_if wanted number numbers.items) }
{
    let mut numbers = numbers;
    if wanted {
        numbers.push(number)?;
    }
    Ok(numbers)
}
