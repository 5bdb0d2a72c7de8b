// The pages that a list of grant references names.
#![tactic(auto)]

ghost use Rattle.std.specs.Prelude.{◌≡◌, ◌≤◌, length};
ghost use Rattle.frontend.specs.Stages.{Searched, PagesTested};

use frontend::Unusable;

// The search over references: each must be fit for receive and name another page than those before it. It ends at the first pair
// that names one page. The table gets the pages, so that each reference is looked up once.
pub fn search_pages(
    grants: &[u8],
    window: &[u8],
    references: &[u32],
    pages: &mut [u32; pieces::MOST],
) -> Result<(), Unusable>
    requires { length references.now ≤ 16 }
    ensures { Searched grants.now window.now references.now pages.new result }
{
    let mut found = Ok(());
    'search: for i in 0..references.len() {
        let page = grant::fit_to_write(grants, window, references[i]).ok_or(Unusable::Unfit)?;
        for j in 0..i {
            if pages[j] == page {
                found = Err(Unusable::Same(j as u32, i as u32));
                break 'search;
            }
        }
        pages[i] = page;
    }
    found
}

// Whether the list is too short, a used grant is not fit, or two used references name one page.
pub fn bad_pages(
    grants: &[u8],
    window: &[u8],
    references: &[u32],
    count: u32,
    pages: &mut [u32; pieces::MOST],
) -> bool
    requires { count ≤ 16 }
    ensures { PagesTested grants.now window.now references.now count pages.new result }
{
    let count = count as usize;
    references.len() < count || search_pages(grants, window, &references[..count], pages).is_err()
}
