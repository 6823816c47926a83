//! Documents of Microsoft Office.
pub use infer_deep::doc::{
    is_doc, is_docx, is_ppt, is_pptx, is_xls, is_xlsx, may_become_doc, may_become_docx,
    may_become_ppt, may_become_pptx, may_become_xls, may_become_xlsx,
};
