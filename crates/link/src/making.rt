//! Scatters, and the mail that they send through.
ghost use Rattle.std.specs.Prelude.{◌≡◌, ◌<◌, ◌^◌, false, All, IfOk, length, vec_len};
ghost use Rattle.dia_item.specs.KindList.{kind_list};
ghost use Rattle.scatter.specs.Phases.{AllThree};
ghost use Rattle.link.specs.Scattering.{IsFreshScatter, IsNewPost};
ghost use Rattle.link.specs.Making.{IsMadeReady};

use crate::dealer::Dealer;
use crate::ending::Ended;
use dia_edge::{Disk, NoMemory};
use dia_item::{Kinds, RowRef};
use exchange::Scatter;
use multiplexer::{Mail, Post, RecvEnd, SendEnd};
use std::alloc::Global;

/// A scatter for each post, of rows of these kinds, by the route of the same rank.
fn dealers_for<'p, D: Disk, F: Fn(RowRef<'_>, u64) -> u32 + Drop, P: Post + Drop>(
    alloc: Global,
    kinds: Kinds,
    routes: Vec<F>,
    posts: Vec<P>,
) -> Result<Vec<Dealer<'p, D, F, P>>, NoMemory>
    requires long { vec_len routes ≡ vec_len posts }
    requires few { vec_len posts < 2 ^ 32 }
    requires new { All (IsNewPost P.Post (vec_len posts)) posts.items }
    ensures fresh { IfOk result (λ dealers. AllThree (IsFreshScatter P.Post (kind_list kinds) (vec_len posts)) routes.items posts.items dealers.items) }
{
    let workers = posts.len() as u32;
    let mut dealers = Vec::with_capacity(alloc, posts.len())?;
    let mut routes = routes.into_iter();
    for post in posts {
        let Some(route) = routes.next() else {
            unreachable!()
        };
        let scatter = Scatter::new(alloc, kinds, workers, route, post)?;
        dealers.push_reserved(Dealer { scatter });
    }
    Ok(dealers)
}

/// What a phase that sends wants: a scatter for each worker, the ends that are received through, and room for the end.
#[derive(Drop)]
pub(crate) struct Ready<'p, 'm, D: Disk, F> {
    pub(crate) dealers: Vec<Dealer<'p, D, F, SendEnd<'m>>>,
    pub(crate) recvs: Vec<RecvEnd<'m>>,
    pub(crate) room: Ended<'p, D, SendEnd<'m>>,
}

/// Scatters by these routes over a mail whose ends weren't given out.
pub(crate) fn made_ready<'p, 'm, D: Disk, F: Fn(RowRef<'_>, u64) -> u32 + Drop>(
    alloc: Global,
    mail: &'m mut Mail,
    kinds: Kinds,
    routes: Vec<F>,
) -> Result<Ready<'p, 'm, D, F>, NoMemory>
    requires new { mail.old.is_given ≡ false }
    requires long { length mail.old.mail ≡ vec_len routes }
    requires few { vec_len routes < 2 ^ 32 }
    ensures { IfOk result (λ ready. IsMadeReady ⟦<SendEnd<'m> as Post>⟧ (kind_list kinds) mail.old.mail routes.items ready.dealers.items ready.recvs.items ready.room) }
{
    let room = Ended::new(alloc, routes.len())?;
    let (sends, recvs) = mail.ends(alloc)?;
    let dealers = dealers_for(alloc, kinds, routes, sends)?;
    Ok(Ready {
        dealers,
        recvs,
        room,
    })
}
